ghost use Rattle.std.specs.Prelude.{◌≡◌};
ghost use Rattle.listrun.specs.Answers.{answered, bag_after};

use crate::answer::Answer;
use crate::request::Request;
use queue::open_list::OpenList;

// Asks a list.
fn ask<L: OpenList>(l: &mut L, request: Request) -> Answer
    ensures is { result ≡ answered request (L.bag l.old) (L.limit l.old) }
    ensures after { L.bag l.new ≡ bag_after request (L.bag l.old) (L.limit l.old) }
    ensures same_limit { L.limit l.new ≡ L.limit l.old }
{
    match request {
        Request::Put(e) => {
            if l.put(e) {
                Answer::Added(e)
            } else {
                Answer::Full(e)
            }
        }
        Request::Look => l.look().map_or(Answer::Empty, Answer::Shown),
        Request::Take => l.take().map_or(Answer::Empty, Answer::Taken),
    }
}

// Asks two lists the same. Each answers and holds what its own bag and limit say: so where these are the same, the
// lists answer alike, and so it stays.
pub fn ask_both<A: OpenList, B: OpenList>(
    a: &mut A,
    b: &mut B,
    request: Request,
) -> (Answer, Answer)
    ensures first { result.0 ≡ answered request (A.bag a.old) (A.limit a.old) }
    ensures second { result.1 ≡ answered request (B.bag b.old) (B.limit b.old) }
    ensures bags { (A.bag a.new ≡ bag_after request (A.bag a.old) (A.limit a.old))
        × (B.bag b.new ≡ bag_after request (B.bag b.old) (B.limit b.old)) }
    ensures alike { A.bag a.old ≡ B.bag b.old → A.limit a.old ≡ B.limit b.old
        → result.0 ≡ result.1 }
    ensures stays { A.bag a.old ≡ B.bag b.old → A.limit a.old ≡ B.limit b.old
        → A.bag a.new ≡ B.bag b.new }
    ensures limits { (A.limit a.new ≡ A.limit a.old) × (B.limit b.new ≡ B.limit b.old) }
{
    let x = ask(a, request);
    let y = ask(b, request);
    (x, y)
}
