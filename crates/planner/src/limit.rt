/// What ended a search that is not settled.
#[derive(Clone, Copy, PartialEq, Eq, Debug)]
pub enum Limit {
    /// As many nodes were expanded as the budget allows.
    Budget,
    /// Fewer nodes are unused than the next node has children.
    Nodes,
}
