#![tactic(auto)]

// Drives an entry heap and a chain side by side through one long sequence of puts and takes, and prints what each answers:
// a line of the heap, then a line of the chain, for every sixteen requests.
use crate::ask::ask_both;
use crate::request::Requests;
use chain::cell::Cell;
use chain::entry_chain::EntryChain;
use queue::entry::Entry;
use queue::entry_heap::EntryHeap;
use queue::open_list::OpenList;
use std::alloc::Global;

mod answer;
mod ask;
mod request;

// Sixteen requests to both lists, and a line for each list.
fn run_line<A: OpenList, B: OpenList>(
    rt: &impl Print,
    heap: Global,
    a: &mut A,
    b: &mut B,
    requests: &mut Requests,
) -> anyhow::Result<()> {
    let mut of_a = String::new(heap);
    let mut of_b = String::new(heap);
    for _ in 0..16 {
        let (x, y) = ask_both(a, b, requests.next());
        of_a.push_str(format!(in heap; " {x}")?.as_str())?;
        of_b.push_str(format!(in heap; " {y}")?.as_str())?;
    }
    let held = a.count();
    println!(rt; "heap  holds {held}:{of_a}")?;
    let held = b.count();
    println!(rt; "chain holds {held}:{of_b}")?;
    Ok(())
}

fn main(rt: HostRuntime) -> anyhow::Result<()> {
    let some = Entry { bound: 7, node: 77 };
    let mut slots = [some; 100];
    let mut cells = [Cell {
        entry: some,
        next: 777,
    }; 100];
    let mut heap = EntryHeap::start(&mut slots);
    let mut chain = EntryChain::start(&mut cells);
    let mut requests = Requests {
        number: 0,
        state: 1,
    };
    for _ in 0..320 {
        run_line(&rt, rt.alloc(), &mut heap, &mut chain, &mut requests)?;
    }
    Ok(())
}
