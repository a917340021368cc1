#![tactic(auto)]

pub mod cell;
pub mod entry_chain;
mod links;
