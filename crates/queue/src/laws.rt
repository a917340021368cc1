ghost use Rattle.queue.specs.Keeping.{SlotsBehindKept};

// A theorem on lent memory, as the promise of a function of its name.

// Whatever is put and taken, a heap leaves the slots as they were that lie behind the most entries that it ever held.
pub fn slots_behind_kept()
    ensures { SlotsBehindKept }
{}
