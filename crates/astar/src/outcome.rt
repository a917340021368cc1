// What ends a call of advance: the memory is not this search's or a node is unsound; the best schedule is known to
// be shortest; the budget is spent; too few nodes are unused.
#[derive(Clone, Copy, PartialEq, Eq, Debug)]
pub enum Outcome {
    Strange,
    Met,
    Paused,
    Full,
}
