#![tactic(auto)]

//! Reads a run file from standard input, searches for the shortest schedule of its task graph, and prints the page of
//! the search, or why there is none.
use planner::start::start;
use std::process::ExitCode;

fn main(rt: HostRuntime) -> ExitCode {
    start(rt)
}
