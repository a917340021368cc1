#![tactic(auto)]

//! Reads a run file from standard input, searches for a shortest schedule with a lower bound and an open list of its own, and
//! prints the length of the best schedule, and whether it is known to be shortest.
ghost use Rattle.std.specs.Prelude.{◌≡◌, Some, IfOk, IfErr, vec_capacity};
ghost use Rattle.loader.specs.Meaning.{the_graph};
ghost use Rattle.nodes.specs.Meaning.{the_nodes};
ghost use Rattle.search.specs.Calls.{open_fault};
ghost use Rattle.solve.specs.Solving.{Solves};
ghost use Rattle.custom.specs.Finishes.{latest_finish};

use crate::latest_finish::LatestFinish;
use crate::sorted_list::SortedList;
use anyhow::{Error, anyhow};
use loader::graph::TaskGraph;
use loader::load::load;
use nodes::node::{Node, Status};
use nodes::table::Table;
use partial::partial::PartialSchedule;
use partial::placement::Placement;
use refusal::refusal::Refusal;
use search::fault::SearchFault;
use solve::solve::{Solved, solve};
use std::alloc::{AllocError, Global};
use std::io::Read;

mod latest_finish;
mod sorted_list;

// How many nodes the search has, and how many entries the list has room for.
const NODES: usize = 256;

// A table of nodes that hold nothing.
fn blank_table(heap: Global) -> Result<Table, AllocError> {
    let blank = Node {
        partial: PartialSchedule::empty(),
        bound: 0,
        status: Status::Expanded,
    };
    match Table::new(heap, vec![in heap; blank; NODES]?) {
        Ok(table) => Ok(table),
        Err((fault, _nodes)) => Err(fault),
    }
}

// A search by this crate's lower bound and with its open list. What `solve` promises of any, it promises of these.
fn search(g: &TaskGraph, table: &mut Table, list: &mut SortedList) -> Result<Solved, SearchFault>
    ensures solves { IfOk result (λ s. Solves (the_graph g.now) latest_finish table.new
        list.new.entries.items (vec_capacity list.new.entries) s) }
    ensures refused { IfErr result (λ e. open_fault (the_nodes table.old)
        list.old.entries.items (vec_capacity list.old.entries) ≡ Some e) }
{
    solve(g, &LatestFinish, table, list, 1, u64::MAX)
}

// A refusal that ends the program.
fn refused<F: Into<Refusal>>(fault: F) -> Error {
    let refusal: Refusal = fault.into();
    anyhow!("{refusal}")
}

fn main(rt: HostRuntime) -> anyhow::Result<()> {
    let mut bytes = Vec::new(rt.alloc());
    rt.stdin().read_to_end(&mut bytes)?;
    let mut graph = TaskGraph::new();
    load(&mut graph, bytes.as_slice()).map_err(refused)?;
    let mut table = blank_table(rt.alloc())?;
    let mut list = SortedList::new(rt.alloc(), NODES)?;
    let mut rows = [Placement {
        machine: 0,
        start: 0,
    }; 32];
    let solved = search(&graph, &mut table, &mut list).map_err(refused)?;
    let (best, word) = match solved {
        Solved::Shortest(settled) => (
            settled.best(&graph, &table, &mut list, &mut rows),
            "shortest",
        ),
        Solved::Open(search) => (search.best(&graph, &table, &mut list, &mut rows), "open"),
    };
    let length = best.map_err(refused)?;
    println!(rt; "length {length}")?;
    println!(rt; "{word}")?;
    Ok(())
}
