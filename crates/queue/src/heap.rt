ghost use Rattle.std.specs.Prelude.{◌≡◌, ◌≤◌, false, length, take, if◌then◌else◌, None, nat_lt};
ghost use Rattle.bag.specs.Bag.{insert, first, rest};

use crate::sift::{sift_down, sift_up};
use bag::order::TotalOrder;

// A binary heap in lent slots: the first `count` slots hold its entries.
// The slots are lent and their number is fixed, so those in use are counted.
// The heap order is a premise and a promise, since a test would read every slot; a type that holds a heap keeps it.
#[derive(Drop)]
pub struct Heap<'a, T> {
    slots: &'a mut [T],
    count: usize,
    ghost within: { count ≤ length slots.now },
}

impl<T: TotalOrder> Heap<'_, T> {
    ghost use Rattle.queue.specs.Heaps.{slots_of, bag_of, Heaped, SlotsKept};

    // An empty heap in slots that hold anything.
    pub(crate) fn start(slots: &mut [T]) -> Heap<'_, T>
        ensures slots { slots_of result ≡ slots.old }
        ensures empty { result.count ≡ 0 }
        ensures lender { result.slots.ghost_name ≡ slots.entry.ghost_name }
        ensures heaped { Heaped T.before result }
    {
        Heap { slots, count: 0 }
    }

    // The slots in use.
    fn entries(&self) -> &[T]
        ensures { result.now ≡ take self.now.count (slots_of self.now) }
    {
        &self.slots[..self.count]
    }

    // How many slots are in use.
    pub(crate) fn len(&self) -> usize
        ensures { result ≡ self.now.count }
    {
        self.entries().len()
    }

    // How many slots there are.
    pub(crate) fn capacity(&self) -> usize
        ensures { result ≡ length (slots_of self.now) }
    {
        self.slots.len()
    }

    // Adds an entry; false, and nothing is changed, where all slots are in use.
    pub(crate) fn push(&mut self, e: T) -> bool
        requires { Heaped T.before self.old }
        ensures is { result ≡ nat_lt self.old.count (length (slots_of self.old)) }
        ensures bag { bag_of T.before self.new ≡ (if result
            then insert T.before e (bag_of T.before self.old)
            else bag_of T.before self.old) }
        ensures heaped { Heaped T.before self.new }
        ensures kept { SlotsKept self.old self.new }
        ensures room { length (slots_of self.new) ≡ length (slots_of self.old) }
        ensures refused { result ≡ false → self.new ≡ self.old }
    {
        let last = self.count;
        if last == self.capacity() {
            return false;
        }
        self.slots[last] = e;
        sift_up(self.slots, last);
        self.count += 1;
        true
    }

    // The first entry in order.
    pub(crate) fn peek(&self) -> Option<T>
        requires { Heaped T.before self.now }
        ensures { result ≡ first (bag_of T.before self.now) }
    {
        self.entries().first().copied()
    }

    // Takes the first entry in order; None, and nothing is changed, where there is none.
    pub(crate) fn pop(&mut self) -> Option<T>
        requires { Heaped T.before self.old }
        ensures is { result ≡ first (bag_of T.before self.old) }
        ensures bag { bag_of T.before self.new ≡ rest (bag_of T.before self.old) }
        ensures heaped { Heaped T.before self.new }
        ensures kept { SlotsKept self.old self.new }
        ensures room { length (slots_of self.new) ≡ length (slots_of self.old) }
        ensures empty { result ≡ None → self.new ≡ self.old }
    {
        let top = self.peek()?;
        let last = self.count - 1;
        self.slots.swap(0, last);
        sift_down(self.slots, last);
        self.count = last;
        Some(top)
    }
}
