#![tactic(auto)]

//! `planrun` on a file that is refused: the work of task 1 is out of range.
use planner::start::start;
use std::process::ExitCode;

fn main(rt: HostRuntime) -> ExitCode {
    start(rt)
}
