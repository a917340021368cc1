#![tactic(auto)]

pub mod names;
pub mod partial;
pub mod placement;
