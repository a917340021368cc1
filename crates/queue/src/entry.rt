use bag::order::TotalOrder;
use std::cmp::Reverse;
use std::fmt;

// What an open list holds: a node of the search by its number, and its lower bound.
#[derive(Clone, Copy, PartialEq, Eq, Debug)]
pub struct Entry {
    pub bound: u64,
    pub node: usize,
}

// The lesser bound comes first, among equals the greater node number.
impl TotalOrder for Entry {
    ghost use Rattle.queue.specs.Entries.{entry_before};
    ghost use Rattle.queue.specs.EntryBags.{entries-ordered};

    ghost before = { entry_before };

    ghost total = { entries-ordered };

    fn comes_before(&self, other: &Entry) -> bool {
        (self.bound, Reverse(self.node)) < (other.bound, Reverse(other.node))
    }
}

// As `3/17`: the bound, then the node.
impl fmt::Display for Entry {
    ghost use Rattle.std.specs.Prelude.{Some};
    ghost use Rattle.queue.specs.Entries.{entry_text};

    ghost output = { λ e. Some (entry_text e) };

    fn fmt<W: fmt::Write>(&self, f: &mut fmt::Formatter<W>) -> fmt::Result {
        let Entry { bound, node } = *self;
        write!(f, "{bound}/{node}")
    }
}
