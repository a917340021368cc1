#![tactic(auto)]

pub mod laws;
pub mod outcome;
pub mod sizes;
pub mod tally;
