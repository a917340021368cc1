ghost use Rattle.std.specs.Prelude.{◌≡◌, ℕ, ◌+◌, ◌≤◌, ◌↔◌, ◌++◌, map, length, Contains, AllPairs};
ghost use Rattle.model.specs.Partial.{Free};
ghost use Rattle.model.specs.NormalForm.{OnMachines};
ghost use Rattle.model.specs.Children.{Tried, ChoiceFirst, choices};
ghost use Rattle.model.specs.Soundness.{Orderly};
ghost use Rattle.loader.specs.Meaning.{the_graph};
ghost use Rattle.partial.specs.Meaning.{the_partial, Appendable};
ghost use Rattle.children.specs.Choices.{pairs_of};

use crate::choice::Choice;
use crate::short_list::ShortList;
use crate::tried::tried;
use loader::graph::TaskGraph;
use partial::partial::PartialSchedule;

// The choices of a partial schedule, at most 256: 32 tasks on 8 machines.
#[derive(Drop)]
pub struct Choices {
    list: ShortList<Choice, 256>,
}

// Adds task t on each of the machines.
fn add(list: &mut ShortList<Choice, 256>, t: usize, machines: &[u8])
    requires { length list.old + length machines.now ≤ 256 }
    ensures { pairs_of list.new ≡ pairs_of list.old ++ map (λ m. (t, m)) machines.now }
{
    for m in machines {
        list.push(Choice {
            task: t,
            machine: *m,
        });
    }
}

impl Choices {
    ghost use Rattle.children.specs.Meaning.{the_choices};

    // Every free task ascending, on each used machine ascending, then on the lowest empty one.
    pub fn of(g: &TaskGraph, q: &PartialSchedule) -> Choices
        ensures is { the_choices result ≡ choices (the_graph g.now) (the_partial q.now) }
        ensures which { (t m : ℕ) → OnMachines (the_graph g.now) (the_partial q.now)
            → Contains (the_choices result) (t, m)
            ↔ (Free (the_graph g.now) (the_partial q.now) t
            × Tried (the_graph g.now) (the_partial q.now) m) }
        ensures order { AllPairs (ChoiceFirst (the_graph g.now) (the_partial q.now))
            (the_choices result) }
        ensures appendable { (t m : ℕ) → Orderly (the_graph g.now) (the_partial q.now)
            → Contains (the_choices result) (t, m)
            → Appendable (the_graph g.now) (the_partial q.now) t m }
    {
        let machines = tried(g, q);
        let mut list = ShortList::new(Choice {
            task: 0,
            machine: 0,
        });
        for t in 0..g.tasks() {
            if q.is_free(g, t) {
                add(&mut list, t, machines.as_slice());
            }
        }
        Choices { list }
    }

    // How many there are.
    pub fn len(&self) -> usize
        ensures is { result ≡ length (the_choices self.now) }
        ensures few { result ≤ 256 }
    {
        self.list.len()
    }

    // The choices, in order.
    pub fn as_slice(&self) -> &[Choice]
        ensures { pairs_of result.now ≡ the_choices self.now }
    {
        self.list.as_slice()
    }
}
