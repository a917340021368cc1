#![tactic(auto)]

mod cycles;
pub mod fault_refusal;
pub mod faults;
pub mod graph;
mod levels;
pub mod load;
mod pairs;
pub mod prefix;
mod read;
mod records;
mod sizes;
pub mod transfer;
mod transfer_list;
