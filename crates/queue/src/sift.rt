ghost use Rattle.std.specs.Prelude.{◌≡◌, ◌+◌, ◌*◌, ◌^◌, ◌<◌, ◌≤◌, length, slice_index_or, MatchOption};
ghost use Rattle.queue.specs.Slots.{parent, HeapOrder, BelowTop, Rearranged, LeastChild};

use bag::order::TotalOrder;

// Whether the entry of slot a comes before that of slot b.
fn is_before<T: TotalOrder>(s: &[T], a: usize, b: usize) -> bool
    requires { (a < length s.now) × (b < length s.now) }
    ensures { (d : T) → result ≡ T.before (slice_index_or s.now a d) (slice_index_or s.now b d) }
{
    s[a].comes_before(&s[b])
}

// The slot above slot j; there is none above slot 0.
fn slot_above(j: usize) -> Option<usize>
    ensures { MatchOption result (j ≡ 0) (λ k. (k < j) × (parent j ≡ k)) }
{
    j.checked_sub(1).map(|k| k / 2)
}

// Moves the entry of slot `last` up to its place: the slots below it are a heap, and then it is one of them.
pub(crate) fn sift_up<T: TotalOrder>(s: &mut [T], last: usize)
    requires within { last < length s.old }
    requires heap { HeapOrder T.before s.old last }
    ensures heap { HeapOrder T.before s.new (last + 1) }
    ensures slots { Rearranged (last + 1) s.old s.new }
{
    let mut at = last;
    while let Some(above) = slot_above(at) {
        if !is_before(s, at, above) {
            break;
        }
        s.swap(above, at);
        at = above;
    }
}

// The first of the two slots below slot j.
fn left_child(j: usize) -> usize
    requires { 2 * j + 1 < 2 ^ 64 }
    ensures { result ≡ 2 * j + 1 }
{
    j * 2 + 1
}

// The child of slot j, among the first n slots, whose entry comes first; None where it has no child there.
fn least_child<T: TotalOrder>(s: &[T], j: usize, n: usize) -> Option<usize>
    requires { n ≤ length s.now }
    ensures { MatchOption result (n ≤ 2 * j + 1)
        (λ c. (1 ≤ c) × (c < n) × (parent c ≡ j) × LeastChild T.before s.now j c n) }
{
    if n / 2 <= j {
        return None;
    }
    let left = left_child(j);
    if left + 1 < n && is_before(s, left + 1, left) {
        Some(left + 1)
    } else {
        Some(left)
    }
}

// Moves the entry of slot 0 down to its place: but for slot 0 the first n slots are a heap, and then they all are.
pub(crate) fn sift_down<T: TotalOrder>(s: &mut [T], n: usize)
    requires within { n ≤ length s.old }
    requires heap { BelowTop T.before s.old n }
    ensures heap { HeapOrder T.before s.new n }
    ensures slots { Rearranged n s.old s.new }
{
    let mut at = 0;
    while let Some(child) = least_child(s, at, n) {
        if !is_before(s, child, at) {
            break;
        }
        s.swap(at, child);
        at = child;
    }
}
