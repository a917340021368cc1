#![tactic(auto)]

mod expand;
pub mod fault;
pub mod fault_refusal;
pub mod search;
