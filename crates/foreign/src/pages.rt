use crate::blank::SLOTS;
use crate::graphs::Draft::Example;
use crate::line::Line;
use crate::line::Line::{Page, Title};
use crate::scene::{Origin, Scene};
use crate::told::Told;
use page::page::Page as _;
use refusal::refusal::Refusal;
use std::alloc::Global;

// The page of the search that two steps were made of has 233 bytes, the one of the settled search 238. Each fits a buffer
// that is just as long, and a shorter one is left alone.
pub(crate) const PAGES: &[Line] = &[
    Title("pages"),
    Page(2, 0),
    Page(2, 232),
    Page(2, 233),
    Page(2, 234),
    Page(2, 300),
    Page(100, 0),
    Page(100, 237),
    Page(100, 238),
    Page(100, 239),
    Page(100, 300),
];

// What a buffer holds before a page is written; no page has this byte.
const FILL: u8 = 255;

// Writes the page of the example's search after so many steps; of the settled search, where it settles.
fn page(heap: Global, steps: u64, buffer: &mut [u8]) -> anyhow::Result<(&'static str, Told)> {
    let mut slots = SLOTS;
    let Scene {
        graph,
        search,
        table,
        mut list,
    } = Scene::new(heap, &Origin(Example, 11, steps), &mut slots)?;
    let (name, written) = match search.settle(&graph, &table, &mut list) {
        Ok(settled) => ("shortest", settled.page(&graph, &table, &mut list, buffer)),
        Err((_, search)) => ("open", search.page(&graph, &table, &mut list, buffer)),
    };
    let answer = match written {
        Ok(length) => Told::Number(length as u64),
        Err(fault) => Told::Refused(Refusal::from(fault)),
    };
    Ok((name, answer))
}

// What a page answers to a buffer of so many bytes, and how many of these it left alone.
pub(crate) fn write_page(heap: Global, steps: u64, room: usize) -> anyhow::Result<String> {
    let mut buffer = [FILL; 300];
    let buffer = &mut buffer[..room.min(300)];
    let (name, answer) = page(heap, steps, buffer)?;
    let mut left = 0u64;
    for byte in &*buffer {
        if *byte == FILL {
            left = left.saturating_add(1);
        }
    }
    Ok(format!(in heap; "{name} in {room} bytes: {answer}, {left} left alone")?)
}
