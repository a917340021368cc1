ghost use Rattle.std.specs.Prelude.{◌≡◌, ◌≤◌, ◌++◌, Bool, None, length, drop, MatchResult, IfOk, Err, Ok, replicate};
ghost use Rattle.model.specs.Bounds.{joined_bound};
ghost use Rattle.model.specs.Nodes.{no_node};
ghost use Rattle.loader.specs.declared.faults.GraphFault.{GraphFault};
ghost use Rattle.loader.specs.Description.{described};
ghost use Rattle.loader.specs.Meaning.{the_graph, description};
ghost use Rattle.loader.specs.Parse.{parse};
ghost use Rattle.loader.specs.Refusals.{refusal_of};
ghost use Rattle.nodes.specs.Meaning.{the_nodes};
ghost use Rattle.search.specs.Calls.{open_fault, answer_or, left_or};
ghost use Rattle.search.specs.Promise.{InRun};
ghost use Rattle.solve.specs.Solving.{end_of, ended, is_shortest};
ghost use Rattle.page.specs.Pages.{text_of, page_fault};
ghost use Rattle.planner.specs.Limits.{limit_of, expanded_in};
ghost use Rattle.planner.specs.Planning.{Written, TextOf, OutOfMemory, PlanOf, FaultOf};

use crate::limit::Limit;
use crate::options::Options;
use crate::plan_fault::PlanFault;
use bounds::joined::JOINED;
use loader::graph::TaskGraph;
use loader::load::load;
use nodes::node::{Node, Status};
use nodes::table::Table;
use page::page::Page;
use partial::partial::PartialSchedule;
use queue::entry::Entry;
use queue::entry_heap::EntryHeap;
use queue::open_list::OpenList;
use refusal::refusal::Refusal;
use search::fault::PageFault;
use solve::solve::{Solved, solve};
use std::alloc::{AllocError, Global};

// No page is longer.
const ROOM: usize = 4400;

/// A plan of a run file.
#[derive(Drop)]
pub struct Plan {
    /// The page of the search.
    pub page: Vec<u8>,
    /// What ended the search, where it is not settled.
    pub limit: Option<Limit>,
}

// The graph that a run file describes, or the refusal of the file.
fn read_graph(bytes: &[u8]) -> Result<TaskGraph, Refusal>
    ensures { MatchResult result
        (λ g. (parse bytes.now ≡ Ok (description g)) × (described (description g) ≡ the_graph g))
        (λ e. (f : GraphFault) × (parse bytes.now ≡ Err f) × (e ≡ refusal_of f)) }
{
    let mut graph = TaskGraph::new();
    load(&mut graph, bytes)?;
    Ok(graph)
}

// Writes the page of what a search came to: it ends with the word shortest if that is known.
fn solved_page<L: OpenList>(
    solved: &Solved,
    g: &TaskGraph,
    table: &Table,
    list: &mut L,
    page: &mut [u8],
) -> Result<usize, PageFault>
    ensures is { let m = end_of table.now (L.bag list.old) (L.limit list.old) solved.now in
        result ≡ answer_or (length (text_of (the_graph g.now) (is_shortest solved.now) m))
        (page_fault (the_graph g.now) (is_shortest solved.now) m (length page.old)) }
    ensures page { let m = end_of table.now (L.bag list.old) (L.limit list.old) solved.now in
        page.new ≡ left_or (text_of (the_graph g.now) (is_shortest solved.now) m
        ++ drop (length (text_of (the_graph g.now) (is_shortest solved.now) m)) page.old) page.old
        (page_fault (the_graph g.now) (is_shortest solved.now) m (length page.old)) }
    ensures room { let m = end_of table.now (L.bag list.old) (L.limit list.old) solved.now in
        (done : Bool) → InRun (the_graph g.now) done m
        → length (text_of (the_graph g.now) (is_shortest solved.now) m) ≤ 4400 }
{
    match solved {
        Solved::Shortest(settled) => settled.page(g, table, list, page),
        Solved::Open(search) => search.page(g, table, list, page),
    }
}

// What ended a search with this budget, where it is not settled.
fn limit_of(solved: &Solved, budget: u64) -> Option<Limit>
    ensures { result ≡ limit_of (is_shortest solved.now) (expanded_in solved.now) budget }
{
    match solved {
        Solved::Shortest(_) => None,
        Solved::Open(search) if search.tally().expanded == budget => Some(Limit::Budget),
        Solved::Open(_) => Some(Limit::Nodes),
    }
}

// Searches once with a budget, writes the page of what it came to, and tells what ended it.
fn search_page<L: OpenList>(
    g: &TaskGraph,
    table: &mut Table,
    list: &mut L,
    budget: u64,
    page: &mut [u8],
) -> Result<(usize, Option<Limit>), Refusal>
    requires opens { open_fault (the_nodes table.old) (L.bag list.old) (L.limit list.old) ≡ None }
    requires room { 4400 ≤ length page.old }
    ensures { Written (the_graph g.now) budget
        (ended (the_graph g.now) joined_bound (the_nodes table.old) (L.limit list.old) budget 1)
        result page.old page.new }
{
    let solved = solve(g, &JOINED, table, list, 1, budget)?;
    let length = solved_page(&solved, g, table, list, page)?;
    Ok((length, limit_of(&solved, budget)))
}

// As many nodes that hold nothing.
fn blank_table(heap: Global, nodes: usize) -> Result<Table, AllocError>
    ensures { IfOk result (λ t. the_nodes t ≡ replicate nodes no_node) }
{
    let blank = Node {
        partial: PartialSchedule::empty(),
        bound: 0,
        status: Status::Expanded,
    };
    match Table::new(heap, vec![in heap; blank; nodes]?) {
        Ok(table) => Ok(table),
        Err((fault, _nodes)) => Err(fault),
    }
}

// The plan of a graph, or no memory.
fn plan_graph(heap: Global, g: &TaskGraph, options: Options) -> Result<Plan, PlanFault>
    ensures { MatchResult result (λ p. TextOf (the_graph g.now) options p.page.items p.limit) OutOfMemory }
{
    let mut table = blank_table(heap, options.nodes)?;
    let mut slots = vec![in heap; Entry { bound: 0, node: 0 }; options.nodes]?;
    let mut list = EntryHeap::start(slots.as_mut_slice());
    let mut page = vec![in heap; 0u8; ROOM]?;
    let (length, limit) = search_page(
        g,
        &mut table,
        &mut list,
        options.budget,
        page.as_mut_slice(),
    )?;
    page.truncate(length);
    Ok(Plan { page, limit })
}

/// The plan of a run file: the page of the search that the options name, and what ended the search, where it is not
/// settled; or why there is none.
pub fn plan_file(heap: Global, bytes: &[u8], options: Options) -> Result<Plan, PlanFault>
    ensures { MatchResult result (λ p. PlanOf bytes.now options p.page.items p.limit) (FaultOf bytes.now) }
{
    let graph = read_graph(bytes)?;
    plan_graph(heap, &graph, options)
}
