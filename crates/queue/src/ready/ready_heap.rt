ghost use Rattle.std.specs.Prelude.{◌≡◌, true, false, [], ◌∷◌, length, if◌then◌else◌, None, nat_lt};
ghost use Rattle.std.specs.List.Sorted.{IsPermutation};
ghost use Rattle.bag.specs.Bag.{insert, first, rest};
ghost use Rattle.queue.specs.Heaps.{slots_of, Heaped, SlotsKept};
ghost use Rattle.queue.specs.Bags.{Takes};
ghost use Rattle.queue.specs.ReadyTasks.{ready_before, ReadyLeads};

use crate::heap::Heap;
use crate::ready::ReadyTask;

// Tasks that wait to be placed, as a heap in lent slots. That the slots are in heap order is part of the
// type.
// It is a type of its own beside `EntryHeap`, since each says by its own test in which order its slots lie.
#[derive(Drop)]
pub struct ReadyHeap<'a> {
    heap: Heap<'a, ReadyTask>,
    ghost heaped: { Heaped ready_before heap },
}

impl ReadyHeap<'_> {
    ghost use Rattle.queue.specs.ReadyBags.{ready_bag, ready_room};

    // No tasks, in slots that hold anything.
    pub fn start(slots: &mut [ReadyTask]) -> ReadyHeap<'_>
        ensures bag { ready_bag result ≡ [] }
        ensures slots { slots_of result.heap ≡ slots.old }
        ensures lender { result.heap.slots.ghost_name ≡ slots.entry.ghost_name }
    {
        let heap = Heap::start(slots);
        ReadyHeap { heap }
    }

    // Adds a task; false, and nothing is changed, where all slots are in use.
    pub fn put(&mut self, t: ReadyTask) -> bool
        ensures is { result ≡ nat_lt (length (ready_bag self.old)) (ready_room self.old) }
        ensures after { ready_bag self.new
            ≡ (if result then insert ready_before t (ready_bag self.old) else ready_bag self.old) }
        ensures same_limit { ready_room self.new ≡ ready_room self.old }
        ensures adds { result ≡ true → IsPermutation (t ∷ ready_bag self.old) (ready_bag self.new) }
        ensures kept { SlotsKept self.old.heap self.new.heap }
        ensures refused { result ≡ false → self.new ≡ self.old }
    {
        self.heap.push(t)
    }

    // Takes out the task with the greatest bottom level, among equals the one with the lowest number.
    pub fn take(&mut self) -> Option<ReadyTask>
        ensures is { result ≡ first (ready_bag self.old) }
        ensures after { ready_bag self.new ≡ rest (ready_bag self.old) }
        ensures same_limit { ready_room self.new ≡ ready_room self.old }
        ensures takes { Takes ReadyLeads (ready_bag self.old) result (ready_bag self.new) }
        ensures kept { SlotsKept self.old.heap self.new.heap }
        ensures empty { result ≡ None → self.new ≡ self.old }
    {
        self.heap.pop()
    }
}
