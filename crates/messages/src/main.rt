#![tactic(auto)]

//! Runs the program on streams in memory, and prints for each call what the streams took, the status, and what stands in
//! the output and in the error stream. The texts wanted are worked out by hand.
use crate::calls::{CALLS, Call};
use planner::run::{Ended, run};
use std::alloc::{AllocError, Global};
use std::io;
use std::io::{Print, Read, Write};

mod calls;

const SEARCH: Call = Call::Words(&["planrun", "--budget", "0"]);

fn main(rt: HostRuntime) -> anyhow::Result<()> {
    let mut example = Vec::new(rt.alloc());
    rt.stdin().read_to_end(&mut example)?;
    for call in CALLS {
        let input = call.input(rt.alloc(), example.as_slice())?;
        told(&rt, rt.alloc(), call, &mut input.as_slice())?;
    }
    // An input without an end.
    told(&rt, rt.alloc(), &SEARCH, &mut io::repeat(0))?;
    streams_that_fail(&rt, rt.alloc(), example.as_slice())?;
    Ok(())
}

// Prints what a call comes to.
fn told<R: Read>(rt: &impl Print, heap: Global, call: &Call, input: &mut R) -> anyhow::Result<()> {
    let mut output = Vec::new(heap);
    let mut errors = Vec::new(heap);
    let ended = run(heap, call.words(heap), input, &mut output, &mut errors);
    print_ended(rt, ended)?;
    print_text(rt, heap, output.as_slice())?;
    print_text(rt, heap, errors.as_slice())?;
    Ok(())
}

// The output takes 100 bytes, and then the error stream 10; and there is no memory for the words.
fn streams_that_fail(rt: &impl Print, heap: Global, example: &[u8]) -> anyhow::Result<()> {
    let mut room = [0u8; 100];
    let mut errors = Vec::new(heap);
    let mut output: &mut [u8] = &mut room;
    let mut input = example;
    let ended = run(
        heap,
        SEARCH.words(heap),
        &mut input,
        &mut output,
        &mut errors,
    );
    print_ended(rt, ended)?;
    print_text(rt, heap, errors.as_slice())?;

    let mut room = [0u8; 10];
    let mut output = Vec::new(heap);
    let mut errors: &mut [u8] = &mut room;
    let mut input = example;
    let ended = run(
        heap,
        SEARCH.words(heap),
        &mut input,
        &mut output,
        &mut errors,
    );
    print_ended(rt, ended)?;
    print_text(rt, heap, output.as_slice())?;

    let mut output = Vec::new(heap);
    let mut errors = Vec::new(heap);
    let ended = run(
        heap,
        Err(AllocError),
        &mut io::repeat(0),
        &mut output,
        &mut errors,
    );
    print_ended(rt, ended)?;
    print_text(rt, heap, errors.as_slice())?;
    Ok(())
}

fn print_ended(rt: &impl Print, ended: Ended) -> io::Result<()> {
    let Ended {
        status,
        written,
        told,
    } = ended;
    println!(rt; "== status {status} written {written} told {told}")
}

fn print_text(rt: &impl Print, heap: Global, text: &[u8]) -> io::Result<()> {
    let text = String::from_utf8_lossy(heap, text)?;
    print!(rt; "{text}")
}
