ghost use Rattle.std.specs.Prelude.{◌≡◌, ◌≤◌, [], ◌∷◌, ◌++◌, length, take, drop, IfOk, vec_capacity};
ghost use Rattle.bag.specs.Bag.{insert, InOrder};
ghost use Rattle.bag.proofs.Bags.{in-order-prop};
ghost use Rattle.queue.specs.Entries.{entry_before};
ghost use Rattle.custom.specs.ListLaws.{has-room};

use bag::order::TotalOrder;
use queue::entry::Entry;
use queue::open_list::OpenList;
use std::alloc::{AllocError, Global};

/// An open list as a vector in order, the entry that comes first in front. That it is in order is part of the type.
#[derive(Drop)]
pub struct SortedList {
    entries: Vec<Entry>,
    ghost order: { InOrder entry_before entries.items } by { in-order-prop entry_before _ },
}

impl SortedList {
    /// An empty list with room for `limit` entries, or no memory for it.
    pub fn new(heap: Global, limit: usize) -> Result<SortedList, AllocError>
        ensures bag { IfOk result (λ s. s.entries.items ≡ []) }
        ensures limit { IfOk result (λ s. vec_capacity s.entries ≡ limit) }
    {
        let entries = Vec::with_capacity(heap, limit)?;
        Ok(SortedList { entries })
    }

    // How many entries come before e: the place where it belongs.
    fn place(&self, e: &Entry) -> usize
        ensures within { result ≤ length self.now.entries.items }
        ensures is { let xs = self.now.entries.items in
            take result xs ++ e.now ∷ drop result xs ≡ insert entry_before e.now xs }
    {
        self.entries
            .as_slice()
            .partition_point(|x| x.comes_before(e))
    }
}

impl OpenList for SortedList {
    ghost bag = { λ s. s.entries.items };

    ghost limit = { λ s. vec_capacity s.entries };

    ghost kept = { λ _ _. Unit {0} };

    ghost ordered = { λ s. s.order };

    ghost bounded = { λ s. has-room s.entries };

    fn put(&mut self, e: Entry) -> bool {
        if self.entries.len() == self.entries.capacity() {
            return false;
        }
        // There is room, so that the vector asks for no memory.
        let place = self.place(&e);
        self.entries.insert(place, e).is_ok()
    }

    #[tactic(auto, using(queue::proofs::EntryCalls::shows))]
    fn look(&mut self) -> Option<Entry> {
        self.entries.as_slice().first().copied()
    }

    fn take(&mut self) -> Option<Entry> {
        if self.entries.is_empty() {
            None
        } else {
            Some(self.entries.remove(0))
        }
    }

    fn count(&mut self) -> usize {
        self.entries.len()
    }

    fn capacity(&mut self) -> usize {
        self.entries.capacity()
    }
}
