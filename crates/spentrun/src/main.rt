#![tactic(auto)]

//! `planrun` with a budget that is spent before the search is settled.
use planner::start::start;
use std::process::ExitCode;

fn main(rt: HostRuntime) -> ExitCode {
    start(rt)
}
