ghost use Rattle.std.specs.Prelude.{◌≡◌};
ghost use Rattle.loader.specs.Meaning.{the_graph};
ghost use Rattle.nodes.specs.View.{the_node};
ghost use Rattle.astar.specs.Laws.{floor};
ghost use Rattle.search.specs.Calls.{floor_fault, answer_or};
ghost use Rattle.search.specs.States.{the_state};

use crate::fault::SearchFault;
use crate::search::Search;
use loader::graph::TaskGraph;
use nodes::table::Table;
use queue::open_list::OpenList;

impl Search {
    // The lesser of the best length and the least bound in the list.
    pub(crate) fn lowest<L: OpenList>(
        &self,
        g: &TaskGraph,
        table: &Table,
        list: &mut L,
    ) -> Result<u64, SearchFault>
        ensures is { result ≡ answer_or
            (floor (the_state self.now.tally table.now (L.bag list.old)))
            (floor_fault (the_graph g.now) self.now.sizes
            (the_state self.now.tally table.now (L.bag list.old)) (L.limit list.old)) }
        ensures same { list.new ≡ list.old }
    {
        if !self.is_own(g, table, list) {
            return Err(SearchFault::Foreign);
        }
        let best = table.node(0).bound;
        Ok(list.look().map_or(best, |entry| best.min(entry.bound)))
    }
}
