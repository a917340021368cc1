use crate::blank::{ROW, SLOTS, table};
use crate::line::Line;
use crate::line::Line::{Settling, Title};
use crate::scene::{Scene, TWO_STEPS};
use crate::told::{Told, refused, word};
use anyhow::anyhow;
use bounds::path_bound::PathBound;
use loader::graph::TaskGraph;
use nodes::table::Table;
use queue::entry_heap::EntryHeap;
use refusal::refusal::Refusal;
use search::search::Settled;
use std::alloc::Global;
use std::fmt;

// Settle hands an unsettled search back, and takes it when it has met: the shortest length is 8. The settled search
// refuses a table of another size.
pub(crate) const SETTLING: &[Line] = &[Title("settling"), Settling];

// A line: what a settled search answers with a table of so many nodes.
#[derive(Drop)]
struct Answers {
    nodes: usize,
    floor: Told,
    best: Told,
}

impl fmt::Display for Answers {
    fn fmt<W: fmt::Write>(&self, f: &mut fmt::Formatter<W>) -> fmt::Result {
        let Answers { nodes, floor, best } = self;
        write!(f, "{nodes} nodes: floor {floor}, best {best}")
    }
}

fn ask(settled: &Settled, graph: &TaskGraph, table: &Table, list: &mut EntryHeap<'_>) -> Answers {
    let mut rows = [ROW; 4];
    Answers {
        nodes: table.len(),
        floor: Told::number(settled.floor(graph, table, list)),
        best: Told::number(settled.best(graph, table, list, &mut rows)),
    }
}

// How a search settles two steps on, and at last, with its own table and a larger one.
pub(crate) fn settle(heap: Global) -> anyhow::Result<String> {
    let mut slots = SLOTS;
    let larger = table(heap, 12)?;
    let Scene {
        graph,
        search,
        table: mut own,
        mut list,
    } = Scene::new(heap, &TWO_STEPS, &mut slots)?;
    let Err((fault, mut search)) = search.settle(&graph, &own, &mut list) else {
        return Err(anyhow!("settled too early"));
    };
    let early = Refusal::from(fault);
    let outcome = word(search.advance(&graph, &PathBound, &mut own, &mut list, 100));
    let settled = match search.settle(&graph, &own, &mut list) {
        Ok(settled) => settled,
        Err((fault, _)) => return Err(refused(Refusal::from(fault))),
    };
    let with_own = ask(&settled, &graph, &own, &mut list);
    let with_larger = ask(&settled, &graph, &larger, &mut list);
    Ok(format!(in heap; "two steps on: {early}\nthen: {outcome}\n{with_own}\n{with_larger}")?)
}
