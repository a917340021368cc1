#![tactic(auto)]

mod hash;
pub mod node;
pub mod table;
