#![tactic(auto)]

//! `planrun` called with a value that its option does not take.
use planner::start::start;
use std::process::ExitCode;

fn main(rt: HostRuntime) -> ExitCode {
    start(rt)
}
