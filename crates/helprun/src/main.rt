#![tactic(auto)]

//! `planrun` called for help.
use planner::start::start;
use std::process::ExitCode;

fn main(rt: HostRuntime) -> ExitCode {
    start(rt)
}
