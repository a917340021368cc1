#![tactic(auto)]

pub mod solve;
