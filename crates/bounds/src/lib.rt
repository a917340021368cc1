#![tactic(auto)]

pub mod arrival_bound;
pub mod joined;
pub mod larger_of;
pub mod load_bound;
pub mod lower_bound;
pub mod path_bound;
