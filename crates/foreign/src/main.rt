#![tactic(auto)]

// What the calls of a search answer where the table is full, and where graph, table or list are not what the search
// left: a line for each call or change. The lines wanted are worked out by hand.
use crate::changed_lists::{CHANGED_LISTS, MOVED_LISTS};
use crate::changed_nodes::{CHANGED_BEST, CHANGED_FIRST};
use crate::changed_tables::{CHANGED_GRAPHS, CHANGED_TABLES, RESIZED_TABLES};
use crate::full::FULL_TABLES;
use crate::line::Line;
use crate::openings::OPENINGS;
use crate::pages::PAGES;
use crate::rows::ROWS;
use crate::settled::SETTLING;

mod advanced;
mod answers;
mod blank;
mod changed;
mod changed_lists;
mod changed_nodes;
mod changed_tables;
mod full;
mod graphs;
mod line;
mod openings;
mod pages;
mod rows;
mod scene;
mod settled;
mod told;

const SECTIONS: [&[Line]; 12] = [
    OPENINGS,
    FULL_TABLES,
    CHANGED_FIRST,
    CHANGED_BEST,
    CHANGED_LISTS,
    MOVED_LISTS,
    RESIZED_TABLES,
    CHANGED_TABLES,
    CHANGED_GRAPHS,
    ROWS,
    SETTLING,
    PAGES,
];

fn main(rt: HostRuntime) -> anyhow::Result<()> {
    for section in SECTIONS {
        for line in section {
            println!(rt; "{}", line.told(rt.alloc())?)?;
        }
    }
    Ok(())
}
