use crate::difference::Difference;
use crate::sketch::{BLANK, Sketch};
use astar::outcome::Outcome;
use astar::tally::Tally;
use bounds::lower_bound::LowerBound;
use loader::graph::TaskGraph;
use nodes::table::Table;
use partial::placement::Placement;
use queue::open_list::OpenList;
use schedule::check::check;
use search::search::Search;

// More calls than any search here makes.
const CALLS: u64 = 100_000;

// A sketch, its graph, and the shortest length by trying all schedules.
#[derive(Clone, Copy)]
pub(crate) struct Case {
    pub(crate) sketch: Sketch,
    pub(crate) graph: TaskGraph,
    pub(crate) shortest: u64,
}

// How far a search is: its floor and its best length.
#[derive(Clone, Copy)]
struct Marks {
    floor: u64,
    length: u64,
}

impl Case {
    // How far a search of this case is.
    fn marks<L: OpenList>(
        &self,
        search: &Search,
        table: &Table,
        list: &mut L,
    ) -> Result<Marks, Difference> {
        let mut rows = [BLANK; 32];
        let floor = search
            .floor(&self.graph, table, list)
            .or(Err(Difference::Refused))?;
        let best = search.best(&self.graph, table, list, &mut rows);
        let length = best.or(Err(Difference::Refused))?;
        Ok(Marks { floor, length })
    }

    // The floor may not fall, the best length may not rise, and the shortest length stays between.
    fn check_marks(&self, before: Marks, after: Marks) -> Result<(), Difference> {
        if after.floor < before.floor || before.length < after.length {
            Err(Difference::Back)
        } else if self.shortest < after.floor || after.length < self.shortest {
            Err(Difference::Beyond)
        } else {
            Ok(())
        }
    }

    // Calls of advance until one ends with Met.
    fn run<B: LowerBound, L: OpenList>(
        &self,
        search: &mut Search,
        rule: &B,
        table: &mut Table,
        list: &mut L,
        budget: u64,
    ) -> Result<(), Difference> {
        for _ in 0..CALLS {
            let before = self.marks(search, table, list)?;
            let outcome = search.advance(&self.graph, rule, table, list, budget);
            self.check_marks(before, self.marks(search, table, list)?)?;
            match outcome {
                Outcome::Paused => {}
                Outcome::Met => return Ok(()),
                outcome => return Err(Difference::Ended(outcome)),
            }
        }
        Err(Difference::Endless)
    }

    // Whether rows pass the check and the program's own test with the shortest length.
    fn check_rows(&self, rows: &[Placement]) -> Result<(), Difference> {
        let checked = check(&self.graph, rows).or(Err(Difference::Refused))?;
        let is_own = self.sketch.is_obeyed(rows) && self.sketch.makespan(rows) == self.shortest;
        if is_own && checked == self.shortest {
            Ok(())
        } else {
            Err(Difference::Rows)
        }
    }

    // A search from its opening to its settling: what it did. Floor and best length are then the shortest length, and the
    // best rows have it.
    pub(crate) fn search<B: LowerBound, L: OpenList>(
        &self,
        rule: &B,
        table: &mut Table,
        list: &mut L,
        budget: u64,
    ) -> Result<Tally, Difference> {
        let opened = Search::open(&self.graph, rule, table, list);
        let mut search = opened.or(Err(Difference::Refused))?;
        self.run(&mut search, rule, table, list, budget)?;
        let settled = search
            .settle(&self.graph, table, list)
            .or(Err(Difference::Refused))?;
        let floor = settled
            .floor(&self.graph, table, list)
            .or(Err(Difference::Refused))?;
        let mut rows = [BLANK; 32];
        let best = settled.best(&self.graph, table, list, &mut rows);
        let length = best.or(Err(Difference::Refused))?;
        if floor != self.shortest || length != self.shortest {
            return Err(Difference::Length);
        }
        self.check_rows(&rows[..self.graph.tasks()])?;
        Ok(settled.tally())
    }
}
