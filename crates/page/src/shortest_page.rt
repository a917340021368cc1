ghost use Rattle.std.specs.Prelude.{true};
ghost use Rattle.search.specs.States.{search_of};

use crate::closing::Closing;
use crate::page::{BLANK, Page};
use crate::report::Report;
use crate::write::write;
use loader::graph::TaskGraph;
use nodes::table::Table;
use queue::open_list::OpenList;
use search::fault::PageFault;
use search::search::Settled;

// The page of a settled search ends with the word shortest.
impl Page for Settled {
    ghost counts = { search_of };

    ghost settled = { true };

    fn page<L: OpenList>(
        &self,
        g: &TaskGraph,
        table: &Table,
        list: &mut L,
        buffer: &mut [u8],
    ) -> Result<usize, PageFault> {
        let mut rows = BLANK;
        let length = self.best(g, table, list, &mut rows)?;
        let floor = self.floor(g, table, list)?;
        let report = Report {
            graph: g,
            rows: &rows,
            length,
            floor,
            tally: self.tally(),
            closing: Closing::Shortest,
        };
        write(&report, buffer)
    }
}
