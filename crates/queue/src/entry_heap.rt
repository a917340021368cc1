ghost use Rattle.std.specs.Prelude.{◌≡◌, [], length};
ghost use Rattle.queue.specs.Heaps.{slots_of, bag_of, Heaped, SlotsKept};
ghost use Rattle.queue.specs.Entries.{entry_before};
ghost use Rattle.queue.specs.EntryBags.{slots-ordered, slots-bounded};

use crate::entry::Entry;
use crate::heap::Heap;
use crate::open_list::OpenList;

// An open list as a heap in lent slots. That the slots are in heap order is part of the type.
// It is a type of its own beside `ReadyHeap`, since each says by its own test in which order its slots lie.
#[derive(Drop)]
pub struct EntryHeap<'a> {
    heap: Heap<'a, Entry>,
    ghost heaped: { Heaped entry_before heap },
}

impl EntryHeap<'_> {
    // An empty list in slots that hold anything.
    pub fn start(slots: &mut [Entry]) -> EntryHeap<'_>
        ensures bag { bag_of entry_before result.heap ≡ [] }
        ensures slots { slots_of result.heap ≡ slots.old }
        ensures lender { result.heap.slots.ghost_name ≡ slots.entry.ghost_name }
    {
        let heap = Heap::start(slots);
        EntryHeap { heap }
    }
}

impl OpenList for EntryHeap<'_> {
    ghost bag = { λ s. bag_of entry_before s.heap };

    ghost limit = { λ s. length (slots_of s.heap) };

    ghost kept = { λ a b. SlotsKept a.heap b.heap };

    ghost ordered = { λ s. slots-ordered (slots_of s.heap) s.heap.count };

    ghost bounded = { λ s. slots-bounded (slots_of s.heap) s.heap.count s.heap.within };

    fn put(&mut self, e: Entry) -> bool {
        self.heap.push(e)
    }

    fn look(&mut self) -> Option<Entry> {
        self.heap.peek()
    }

    fn take(&mut self) -> Option<Entry> {
        self.heap.pop()
    }

    fn count(&mut self) -> usize {
        self.heap.len()
    }

    fn capacity(&mut self) -> usize {
        self.heap.capacity()
    }
}
