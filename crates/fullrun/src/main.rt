#![tactic(auto)]

//! `planrun` with nodes that do not suffice.
use planner::start::start;
use std::process::ExitCode;

fn main(rt: HostRuntime) -> ExitCode {
    start(rt)
}
