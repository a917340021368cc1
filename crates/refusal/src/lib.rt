#![tactic(auto)]

pub mod layer;
pub mod refusal;
