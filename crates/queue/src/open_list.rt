ghost use Rattle.std.specs.Prelude.{◌≡◌, ℕ, ◌≤◌, true, false, List, ◌∷◌, length, if◌then◌else◌, None, nat_lt};
ghost use Rattle.std.specs.List.Sorted.{IsPermutation};
ghost use Rattle.bag.specs.Bag.{insert, first, rest, InOrder};
ghost use Rattle.queue.specs.declared.entry.Entry.{Entry};
ghost use Rattle.queue.specs.Bags.{Shows, Takes};
ghost use Rattle.queue.specs.Entries.{entry_before, EntryLeads};

use crate::entry::Entry;

// An open list: a bag of entries with a limit on their number. The bag is told as the list of its entries
// in order.
// Every call takes `&mut self`; those that change nothing say so (clause `same`).
pub trait OpenList {
    ghost bag: { Self → List Entry };

    ghost limit: { Self → ℕ };

    // What a put or a take leaves of the lent memory, by the states before and after. Which places the entries
    // have there is up to the list.
    ghost kept: { Self → Self → Type 0 };

    // The list that tells the bag is in order.
    ghost ordered: { (s : Self) → InOrder entry_before (bag s) };

    ghost bounded: { (s : Self) → length (bag s) ≤ limit s };

    // Adds an entry; false, and nothing is changed, where the list is full.
    fn put(&mut self, e: Entry) -> bool
        ensures is { result ≡ nat_lt (length (bag self.old)) (limit self.old) }
        ensures after { bag self.new ≡ (if result
            then insert entry_before e (bag self.old)
            else bag self.old) }
        ensures same_limit { limit self.new ≡ limit self.old }
        ensures kept { kept self.old self.new }
        ensures adds { result ≡ true → IsPermutation (e ∷ bag self.old) (bag self.new) }
        ensures refused { result ≡ false → self.new ≡ self.old };

    // The entry with the least bound, among equals the one with the greatest node number.
    fn look(&mut self) -> Option<Entry>
        ensures is { result ≡ first (bag self.old) }
        ensures same { self.new ≡ self.old }
        ensures shows { Shows EntryLeads (bag self.old) result };

    // Takes out the entry that look shows; None, and nothing is changed, where there is none.
    fn take(&mut self) -> Option<Entry>
        ensures is { result ≡ first (bag self.old) }
        ensures after { bag self.new ≡ rest (bag self.old) }
        ensures same_limit { limit self.new ≡ limit self.old }
        ensures kept { kept self.old self.new }
        ensures takes { Takes EntryLeads (bag self.old) result (bag self.new) }
        ensures empty { result ≡ None → self.new ≡ self.old };

    // How many entries the list holds.
    fn count(&mut self) -> usize
        ensures is { result ≡ length (bag self.old) }
        ensures same { self.new ≡ self.old };

    // How many entries the list can hold.
    fn capacity(&mut self) -> usize
        ensures is { result ≡ limit self.old }
        ensures same { self.new ≡ self.old };
}
