ghost use Rattle.std.specs.Prelude.{◌≡◌};
ghost use Rattle.loader.specs.Meaning.{the_graph};
ghost use Rattle.search.specs.Calls.{settle_fault};
ghost use Rattle.search.specs.States.{the_state};

use crate::fault::SearchFault;
use crate::search::Search;
use loader::graph::TaskGraph;
use nodes::table::Table;
use queue::open_list::OpenList;

impl Search {
    // Why the search is not settled: the memory is not its own, or the floor is below the best length.
    pub(crate) fn settle_fault<L: OpenList>(
        &self,
        g: &TaskGraph,
        table: &Table,
        list: &mut L,
    ) -> Option<SearchFault>
        ensures is { result ≡ settle_fault (the_graph g.now) self.now.sizes
            (the_state self.now.tally table.now (L.bag list.old)) (L.limit list.old) }
        ensures same { list.new ≡ list.old }
    {
        match self.lowest(g, table, list) {
            Err(fault) => Some(fault),
            Ok(floor) if floor < table.node(0).bound => Some(SearchFault::Unsettled),
            Ok(_) => None,
        }
    }
}
