ghost use Rattle.std.specs.Prelude.{◌≡◌, None, Some, MatchResult, IfOk};
ghost use Rattle.loader.specs.Meaning.{the_graph};
ghost use Rattle.schedule.specs.ListSchedule.{listed};
ghost use Rattle.model.specs.Partial.{nothing};
ghost use Rattle.nodes.specs.View.{the_node};
ghost use Rattle.nodes.specs.Meaning.{the_nodes};
ghost use Rattle.astar.specs.States.{best_node, waiting_node};
ghost use Rattle.astar.specs.Opening.{sizes_of, opened};
ghost use Rattle.search.specs.Calls.{open_fault};
ghost use Rattle.search.specs.States.{the_state};

use crate::fault::SearchFault;
use crate::search::Search;
use astar::sizes::Sizes;
use astar::tally::Tally;
use bounds::lower_bound::LowerBound;
use children::complete::makespan;
use loader::graph::TaskGraph;
use nodes::node::{Node, Status};
use nodes::table::Table;
use partial::partial::PartialSchedule;
use queue::entry::Entry;
use queue::open_list::OpenList;
use schedule::list::list_schedule;

// Nothing done, one node waits.
const FIRST: Tally = Tally {
    expanded: 0,
    generated: 0,
    stored: 0,
    duplicates: 0,
    pruned: 0,
    complete: 0,
    waiting: 1,
};

// Why a search cannot be opened with this table and list.
fn open_fault<L: OpenList>(table: &Table, list: &mut L) -> Option<SearchFault>
    ensures is { result ≡ open_fault (the_nodes table.now) (L.bag list.old) (L.limit list.old) }
    ensures same { list.new ≡ list.old }
{
    let nodes = table.len();
    if nodes < 2 || nodes > 1_048_576 {
        return Some(SearchFault::Table);
    }
    if list.count() > 0 || list.capacity() < nodes {
        return Some(SearchFault::List);
    }
    None
}

// The list schedule with its makespan.
fn first_best(g: &TaskGraph) -> Node
    ensures { the_node result ≡ best_node (the_graph g.now)
        (listed (the_graph g.now) (the_graph g.now).tasks) }
{
    let partial = list_schedule(g);
    let bound = makespan(g, &partial);
    Node {
        partial,
        bound,
        status: Status::Expanded,
    }
}

// The empty partial schedule with its bound.
fn root<B: LowerBound>(g: &TaskGraph, rule: &B) -> Node
    ensures { the_node result ≡ waiting_node nothing (B.number rule.now (the_graph g.now) nothing) }
{
    let partial = PartialSchedule::empty();
    let bound = rule.bound(g, &partial);
    Node {
        partial,
        bound,
        status: Status::Waiting,
    }
}

impl Search {
    // The list schedule fills node 0, the empty partial schedule waits in node 1, and its entry is in the list.
    pub(crate) fn begin<B: LowerBound, L: OpenList>(
        g: &TaskGraph,
        rule: &B,
        table: &mut Table,
        list: &mut L,
    ) -> Result<Search, SearchFault>
        ensures is { MatchResult result
            (λ s. (open_fault (the_nodes table.old) (L.bag list.old) (L.limit list.old) ≡ None)
            × (s.sizes ≡ sizes_of (the_graph g.now) (the_nodes table.old))
            × (the_state s.tally table.new (L.bag list.new)
            ≡ opened (the_graph g.now) (B.number rule.now)
            (listed (the_graph g.now) (the_graph g.now).tasks) (the_nodes table.old)))
            (λ e. (open_fault (the_nodes table.old) (L.bag list.old) (L.limit list.old) ≡ Some e)
            × (the_nodes table.new ≡ the_nodes table.old) × (list.new ≡ list.old)) }
        ensures kept { IfOk result (λ _. L.kept list.old list.new) }
        ensures limit { L.limit list.new ≡ L.limit list.old }
    {
        if let Some(fault) = open_fault(table, list) {
            return Err(fault);
        }
        let root = root(g, rule);
        table.write(0, first_best(g));
        table.write(1, root);
        list.put(Entry {
            bound: root.bound,
            node: 1,
        });
        let sizes = Sizes {
            tasks: g.tasks(),
            machines: g.machines(),
            nodes: table.len(),
        };
        Ok(Search {
            sizes,
            tally: FIRST,
        })
    }
}
