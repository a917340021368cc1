ghost use Rattle.std.specs.Prelude.{◌≡◌, false, [], length, if◌then◌else◌, None, nat_lt};
ghost use Rattle.bag.specs.Bag.{insert, first, rest};
ghost use Rattle.queue.specs.Entries.{entry_before};
ghost use Rattle.chain.specs.Cells.{StrungUp, Apart};

use crate::cell::Cell;
use bag::order::TotalOrder;
use queue::entry::Entry;

// An ordered chain in lent cells: `count` cells from `head` on hold the entries, the others are chained
// from `free` on. That no cell is met twice is part of the type.
// The cells are lent and their number is fixed, so they name each other by number.
#[derive(Drop)]
pub struct Links<'a> {
    pub cells: &'a mut [Cell],
    pub head: usize,
    pub free: usize,
    pub count: usize,
    ghost linked: { Apart cells.now head free count },
}

// Where an entry belongs: behind the cell `previous`, or else at the head, and before the cell `next`.
#[derive(Clone, Copy)]
pub struct Place {
    pub previous: Option<usize>,
    pub next: usize,
}

// Each cell names the one behind it.
fn string_up(cells: &mut [Cell])
    ensures { StrungUp cells.old cells.new }
{
    for (i, cell) in cells.iter_mut().enumerate() {
        cell.next = i + 1;
    }
}

impl Links<'_> {
    ghost use Rattle.chain.specs.Chains.{cells_of, chain_of, CellsKept, Placed};

    // No entries, in cells that hold anything: all are free, each behind the one before it in memory.
    pub(crate) fn start(cells: &mut [Cell]) -> Links<'_>
        ensures chain { chain_of result ≡ [] }
        ensures room { length (cells_of result) ≡ length cells.old }
        ensures cells { StrungUp cells.old (cells_of result) }
        ensures lender { result.cells.ghost_name ≡ cells.entry.ghost_name }
    {
        string_up(cells);
        Links {
            cells,
            head: 0,
            free: 0,
            count: 0,
        }
    }

    // Where e belongs: behind all entries that come before it.
    fn place(&self, e: Entry) -> Place
        ensures { Placed self.now e result }
    {
        let mut previous = None;
        let mut next = self.head;
        for _steps in 0..self.count {
            let cell = self.cells[next];
            if !cell.entry.comes_before(&e) {
                break;
            }
            previous = Some(next);
            next = cell.next;
        }
        Place { previous, next }
    }

    // Adds an entry in its place; false, and nothing is changed, where all cells are in use.
    #[tactic(auto, using(crate::proofs::Inside::free_inside))]
    pub(crate) fn put(&mut self, e: Entry) -> bool
        ensures is { result ≡ nat_lt self.old.count (length (cells_of self.old)) }
        ensures chain { chain_of self.new ≡ (if result
            then insert entry_before e (chain_of self.old)
            else chain_of self.old) }
        ensures room { length (cells_of self.new) ≡ length (cells_of self.old) }
        ensures kept { CellsKept self.old self.new }
        ensures refused { result ≡ false → self.new ≡ self.old }
    {
        if self.count == self.cells.len() {
            return false;
        }
        let Place { previous, next } = self.place(e);
        let fresh = self.free;
        // Until the entry is linked in, the cells are not apart, so they are written through a borrow.
        let cells = &mut *self.cells;
        self.free = cells[fresh].next;
        cells[fresh] = Cell { entry: e, next };
        match previous {
            None => self.head = fresh,
            Some(number) => cells[number].next = fresh,
        }
        self.count += 1;
        true
    }

    // The first entry of the chain.
    #[tactic(auto, using(crate::proofs::Inside::head_inside))]
    pub(crate) fn look(&self) -> Option<Entry>
        ensures { result ≡ first (chain_of self.now) }
    {
        if self.count == 0 {
            None
        } else {
            Some(self.cells[self.head].entry)
        }
    }

    // Takes the first entry out; its cell is the next to be used.
    #[tactic(auto, using(crate::proofs::Inside::head_inside))]
    pub(crate) fn take(&mut self) -> Option<Entry>
        ensures is { result ≡ first (chain_of self.old) }
        ensures chain { chain_of self.new ≡ rest (chain_of self.old) }
        ensures room { length (cells_of self.new) ≡ length (cells_of self.old) }
        ensures kept { CellsKept self.old self.new }
        ensures empty { result ≡ None → self.new ≡ self.old }
    {
        let entry = self.look()?;
        let first = self.head;
        let next = self.cells[first].next;
        self.cells[first].next = self.free;
        self.head = next;
        self.free = first;
        self.count -= 1;
        Some(entry)
    }
}
