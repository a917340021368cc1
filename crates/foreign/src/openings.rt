use crate::blank::{SLOT, SLOTS, first};
use crate::graphs::Draft;
use crate::line::Line;
use crate::line::Line::Opening;
use crate::scene::{Origin, Scene};
use crate::told::Told;
use queue::entry_heap::EntryHeap;
use queue::open_list::OpenList;
use std::alloc::Global;

// A table has two nodes or more, else 9; a list is empty and has a slot for each node, else 10.
pub(crate) const OPENINGS: &[Line] = &[
    Opening(0, 0, 0),
    Opening(1, 1, 0),
    Opening(1, 1, 1),
    Opening(2, 1, 0),
    Opening(2, 2, 0),
    Opening(2, 3, 0),
    Opening(2, 3, 1),
];

// How a search opens there.
pub(crate) fn open(
    heap: Global,
    nodes: usize,
    slots: usize,
    held: usize,
) -> anyhow::Result<String> {
    let mut lent = SLOTS;
    let mut list = EntryHeap::start(first(&mut lent, slots));
    for _ in 0..held {
        let _ = list.put(SLOT);
    }
    let held = list.count();
    let origin = Origin(Draft::Example, nodes, 0);
    let opened = match Scene::open(heap, &origin, list)? {
        Ok(_) => Told::Word("opened"),
        Err(refusal) => Told::Refused(refusal),
    };
    Ok(format!(in heap; "nodes {nodes}, slots {slots}, held {held}: {opened}")?)
}
