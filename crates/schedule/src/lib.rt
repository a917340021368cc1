#![tactic(auto)]

pub mod check;
pub mod checked;
pub mod fault;
pub mod fault_refusal;
pub mod list;
mod waiting;
