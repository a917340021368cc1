ghost use Rattle.std.specs.Prelude.{false};

use crate::closing::Closing;
use crate::page::{BLANK, Page};
use crate::report::Report;
use crate::write::write;
use loader::graph::TaskGraph;
use nodes::table::Table;
use queue::open_list::OpenList;
use search::fault::PageFault;
use search::search::Search;

// The page of a search that goes on ends with the word open.
impl Page for Search {
    ghost counts = { λ s. s };

    ghost settled = { false };

    fn page<L: OpenList>(
        &self,
        g: &TaskGraph,
        table: &Table,
        list: &mut L,
        buffer: &mut [u8],
    ) -> Result<usize, PageFault> {
        let mut rows = BLANK;
        let length = self.best(g, table, list, &mut rows)?;
        let floor = self.floor(g, table, list)?;
        let report = Report {
            graph: g,
            rows: &rows,
            length,
            floor,
            tally: self.tally(),
            closing: Closing::Open,
        };
        write(&report, buffer)
    }
}
