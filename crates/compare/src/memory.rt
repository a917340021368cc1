use chain::cell::Cell;
use nodes::node::{Node, Status};
use nodes::table::Table;
use partial::partial::PartialSchedule;
use queue::entry::Entry;
use std::alloc::{AllocError, Global};

// Room for every partial schedule of five tasks on three machines.
const NODES: usize = 1024;

// What is lent to the searches, one after the other: each begins with what the one before it left there.
#[derive(Drop)]
pub(crate) struct Memory {
    pub(crate) table: Table,
    pub(crate) slots: Vec<Entry>,
    pub(crate) cells: Vec<Cell>,
}

impl Memory {
    pub(crate) fn new(heap: Global) -> Result<Memory, AllocError> {
        let node = Node {
            partial: PartialSchedule::empty(),
            bound: 7,
            status: Status::Waiting,
        };
        let entry = Entry { bound: 7, node: 77 };
        let cell = Cell { entry, next: 777 };
        let Ok(table) = Table::new(heap, vec![in heap; node; NODES]?) else {
            return Err(AllocError);
        };
        Ok(Memory {
            table,
            slots: vec![in heap; entry; NODES]?,
            cells: vec![in heap; cell; NODES]?,
        })
    }
}
