use nodes::node::{Node, Status};
use nodes::table::Table;
use partial::partial::PartialSchedule;
use partial::placement::Placement;
use queue::entry::Entry;
use std::alloc::{AllocError, Global};

// What stands in rows and slots before they are written.
pub(crate) const ROW: Placement = Placement {
    machine: 0,
    start: 0,
};

pub(crate) const SLOT: Entry = Entry { bound: 7, node: 77 };

// No list has more slots than these.
pub(crate) const SLOTS: [Entry; 12] = [SLOT; 12];

// The first so many slots.
pub(crate) fn first(slots: &mut [Entry; 12], count: usize) -> &mut [Entry] {
    &mut slots[..count.min(12)]
}

// A table of so many nodes, and what stands in them before they are written.
pub(crate) fn table(heap: Global, nodes: usize) -> Result<Table, AllocError> {
    let node = Node {
        partial: PartialSchedule::empty(),
        bound: 0,
        status: Status::Expanded,
    };
    match Table::new(heap, vec![in heap; node; nodes]?) {
        Ok(table) => Ok(table),
        Err((fault, _)) => Err(fault),
    }
}
