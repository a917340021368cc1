use crate::changed::{Change, answers_after};
use crate::full::fill;
use crate::openings::open;
use crate::pages::write_page;
use crate::rows::write_rows;
use crate::settled::settle;
use std::alloc::Global;

// What is told: a title, or what a case comes to.
pub(crate) enum Line {
    Title(&'static str),
    // A search is opened with so many nodes and slots, where the list holds so many entries.
    Opening(usize, usize, usize),
    // A search is advanced in a table of so many nodes.
    Full(usize),
    // The case of this name: a scene is changed.
    Changed(&'static str, Change),
    // The best schedule is written in so many rows.
    Rows(usize),
    // A search is settled too early, and in time.
    Settling,
    // The page of a search after so many steps is written in so many bytes.
    Page(u64, usize),
}

impl Line {
    pub(crate) fn told(&self, heap: Global) -> anyhow::Result<String> {
        match self {
            Line::Title(title) => Ok(title.to_string(heap)?),
            Line::Opening(nodes, slots, held) => open(heap, *nodes, *slots, *held),
            Line::Full(nodes) => fill(heap, *nodes),
            Line::Changed(name, change) => Ok(format!(in heap;
                "{}",
                answers_after(heap, name, change)?
            )?),
            Line::Rows(count) => write_rows(heap, *count),
            Line::Settling => settle(heap),
            Line::Page(steps, room) => write_page(heap, *steps, *room),
        }
    }
}
