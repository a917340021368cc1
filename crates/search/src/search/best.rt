ghost use Rattle.std.specs.Prelude.{◌≡◌, ◌≤◌, true, false, length, MatchResult};
ghost use Rattle.model.specs.Nodes.{node_at};
ghost use Rattle.loader.specs.Meaning.{the_graph};
ghost use Rattle.partial.specs.Meaning.{the_partial};
ghost use Rattle.nodes.specs.View.{the_node};
ghost use Rattle.nodes.specs.Meaning.{the_nodes};
ghost use Rattle.astar.specs.States.{best_length};
ghost use Rattle.search.specs.Calls.{is_best, has_best, best_fault, answer_or, left_or, with_rows};
ghost use Rattle.search.specs.States.{the_state};
ghost use Rattle.search.specs.declared.fault.SearchFault.TheVariants.{Foreign};

use crate::fault::{PageFault, SearchFault};
use crate::search::Search;
use children::complete::is_complete;
use loader::graph::TaskGraph;
use nodes::node::Node;
use nodes::table::Table;
use partial::partial::PartialSchedule;
use partial::placement::Placement;
use queue::open_list::OpenList;
use schedule::check::check_partial;

// Whether a node holds a complete schedule that the check passes, and its bound is its makespan.
fn is_best(g: &TaskGraph, node: &Node) -> bool
    ensures { result ≡ is_best (the_graph g.now) (the_node node.now) }
{
    is_complete(g, &node.partial)
        && check_partial(g, &node.partial).is_ok_and(|length| length == node.bound)
}

// Writes the rows of a schedule to the front of the buffer, one for each task.
fn write_rows(g: &TaskGraph, q: &PartialSchedule, rows: &mut [Placement])
    requires { (the_graph g.now).tasks ≤ length rows.old }
    ensures { rows.new ≡ with_rows (the_graph g.now) (the_partial q.now) rows.old }
{
    for t in 0..g.tasks() {
        rows[t] = Placement {
            machine: q.machine(t),
            start: q.start(t),
        };
    }
}

impl Search {
    // Node 0, if the memory is this search's and it holds a schedule with its makespan.
    fn best_node<L: OpenList>(
        &self,
        g: &TaskGraph,
        table: &Table,
        list: &mut L,
    ) -> Result<Node, SearchFault>
        ensures is { MatchResult result
            (λ n. (has_best (the_graph g.now) self.now.sizes
            (the_state self.now.tally table.now (L.bag list.old)) (L.limit list.old) ≡ true)
            × (the_node n ≡ node_at (the_nodes table.now) 0))
            (λ e. (has_best (the_graph g.now) self.now.sizes
            (the_state self.now.tally table.now (L.bag list.old)) (L.limit list.old) ≡ false)
            × (e ≡ Foreign)) }
        ensures same { list.new ≡ list.old }
    {
        let node = table.node(0);
        if self.is_own(g, table, list) && is_best(g, &node) {
            Ok(node)
        } else {
            Err(SearchFault::Foreign)
        }
    }

    // Writes the best schedule's rows and answers its length.
    pub(crate) fn write_best<L: OpenList>(
        &self,
        g: &TaskGraph,
        table: &Table,
        list: &mut L,
        rows: &mut [Placement],
    ) -> Result<u64, PageFault>
        ensures is { result ≡ answer_or
            (best_length (the_state self.now.tally table.now (L.bag list.old)))
            (best_fault (the_graph g.now) self.now.sizes
            (the_state self.now.tally table.now (L.bag list.old)) (L.limit list.old)
            (length rows.old)) }
        ensures rows { rows.new ≡ left_or
            (with_rows (the_graph g.now)
            (node_at (the_nodes table.now) 0).partial rows.old) rows.old
            (best_fault (the_graph g.now) self.now.sizes
            (the_state self.now.tally table.now (L.bag list.old)) (L.limit list.old)
            (length rows.old)) }
        ensures same { list.new ≡ list.old }
    {
        let node = self.best_node(g, table, list)?;
        if rows.len() < g.tasks() {
            return Err(PageFault::Short);
        }
        write_rows(g, &node.partial, rows);
        Ok(node.bound)
    }
}
