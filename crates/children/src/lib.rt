#![tactic(auto)]

pub mod choice;
pub mod choices;
pub mod complete;
pub mod orderly;
mod short_list;
mod tried;
