#![tactic(auto)]

pub mod entry;
pub mod entry_heap;
mod heap;
pub mod laws;
pub mod open_list;
pub mod ready;
mod sift;
