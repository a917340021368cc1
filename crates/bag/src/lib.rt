#![tactic(auto)]

pub mod order;
