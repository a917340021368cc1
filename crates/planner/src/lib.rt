#![tactic(auto)]

//! What the program `planrun` does, from the words of its command line and the bytes of its input to what it writes
//! and the status that it ends with.

pub mod answer;
pub mod explanation;
pub mod input;
pub mod limit;
pub mod messages;
pub mod options;
pub mod plan;
pub mod plan_fault;
pub mod request;
pub mod run;
pub mod setting;
pub mod start;
pub mod words;
