// What a search has done: how many nodes it expanded, how many children they had, what became of these, and
// how many nodes wait.
#[derive(Clone, Copy, PartialEq, Eq, Debug)]
pub struct Tally {
    pub expanded: u64,
    pub generated: u64,
    pub stored: u64,
    pub duplicates: u64,
    pub pruned: u64,
    pub complete: u64,
    pub waiting: u64,
}
