#![tactic(auto)]

mod closing;
mod open_page;
pub mod page;
pub mod pages;
mod report;
mod sheet;
mod short_buffer;
mod shortest_page;
mod word;
mod write;
