use queue::entry::Entry;

// A cell of a chain: an entry, and the number of the next cell.
#[derive(Clone, Copy, PartialEq, Eq, Debug)]
pub struct Cell {
    pub entry: Entry,
    pub next: usize,
}
