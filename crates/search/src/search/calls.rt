ghost use Rattle.std.specs.Prelude.{◌≡◌, ℕ, ◌+◌, ◌-◌, ◌≢◌, ◌<◌, ◌≤◌, ◌↔◌, Bool, true, false, length, drop, slice_index_or, Some, None, Ok, MatchResult, IsOk, IfOk, IfErr};
ghost use Rattle.model.specs.Schedule.{Schedule, Feasible, makespan};
ghost use Rattle.model.specs.Bounds.{Bound};
ghost use Rattle.model.specs.Nodes.{node_at};
ghost use Rattle.loader.specs.Meaning.{the_graph};
ghost use Rattle.schedule.specs.Rows.{blank, schedule_of};
ghost use Rattle.schedule.specs.ListSchedule.{listed};
ghost use Rattle.nodes.specs.Meaning.{the_nodes};
ghost use Rattle.queue.specs.Keeping.{Kept};
ghost use Rattle.astar.specs.declared.outcome.Outcome.TheVariants.{Strange, Met};
ghost use Rattle.astar.specs.States.{best_length};
ghost use Rattle.astar.specs.Opening.{sizes_of, opened};
ghost use Rattle.astar.specs.Advance.{advanced};
ghost use Rattle.astar.specs.Endings.{EndsBy, GoesOnTo};
ghost use Rattle.astar.specs.Course.{Course};
ghost use Rattle.astar.specs.Laws.{Opens, LeastOf};
ghost use Rattle.astar.specs.Laws as laws;
ghost use Rattle.refusal.specs.Refusing.{Refuses};
ghost use Rattle.search.specs.Refusals.{search_refusal, page_refusal};
ghost use Rattle.search.specs.Refused.{OpenRefused, FloorRefused, SettleRefused, WriteRefused};
ghost use Rattle.search.specs.declared.fault.SearchFault.TheVariants.{Unsettled};
ghost use Rattle.search.specs.Calls.{open_fault, floor_fault, settle_fault, best_fault, answer_or, left_or, row_of, with_rows};
ghost use Rattle.search.specs.States.{the_state, moment};
ghost use Rattle.search.specs.Runs.{Moment, Run, Since, Settles};
ghost use Rattle.search.specs.Promise.{floor, best, IsShortest, Promised, InRun};
ghost use Rattle.search.specs.Promise as promise;

use crate::fault::{PageFault, SearchFault};
use crate::search::{Search, Settled};
use astar::outcome::Outcome;
use astar::tally::Tally;
use bounds::lower_bound::LowerBound;
use loader::graph::TaskGraph;
use nodes::table::Table;
use partial::placement::Placement;
use queue::open_list::OpenList;

// The calls of a search. Each says by equality what it answers and leaves, for every graph, table and list; and
// what that is in a run: an accepted open and then any calls on the same graph, lower bound, table and list.
impl Search {
    // Opens a search: the list schedule fills node 0, the empty partial schedule waits in node 1 with its bound, and
    // its entry is the only one of the list. A run begins.
    pub fn open<B: LowerBound, L: OpenList>(
        g: &TaskGraph,
        rule: &B,
        table: &mut Table,
        list: &mut L,
    ) -> Result<Search, SearchFault>
        ensures is { MatchResult result
            (λ s. (open_fault (the_nodes table.old) (L.bag list.old) (L.limit list.old) ≡ None)
            × (s.sizes ≡ sizes_of (the_graph g.now) (the_nodes table.old))
            × (the_state s.tally table.new (L.bag list.new)
            ≡ opened (the_graph g.now) (B.number rule.now)
            (listed (the_graph g.now) (the_graph g.now).tasks) (the_nodes table.old)))
            (λ e. (open_fault (the_nodes table.old) (L.bag list.old) (L.limit list.old) ≡ Some e)
            × (the_nodes table.new ≡ the_nodes table.old) × (list.new ≡ list.old)) }
        ensures fills { IfOk result (λ s. Opens (the_graph g.now) (B.number rule.now)
            (listed (the_graph g.now) (the_graph g.now).tasks) (the_nodes table.old)
            (the_state s.tally table.new (L.bag list.new))) }
        ensures refused { Refuses (OpenRefused (the_nodes table.old) (L.bag list.old) (L.limit list.old))
            search_refusal result }
        ensures kept { IfOk result (λ _. L.kept list.old list.new) }
        ensures limit { L.limit list.new ≡ L.limit list.old }
        ensures run { IfOk result (λ s. Run (the_graph g.now) (B.number rule.now) false
            (moment s table.new (L.bag list.new) (L.limit list.new))) }
        ensures promise { Promised (the_graph g.now) }
    {
        Search::begin(g, rule, table, list)
    }

    // Expands the nodes whose entries come first, up to the budget, until one of five tests applies; the first that does
    // tells the outcome. A run goes on, and is never Strange.
    pub fn advance<B: LowerBound, L: OpenList>(
        &mut self,
        g: &TaskGraph,
        rule: &B,
        table: &mut Table,
        list: &mut L,
        budget: u64,
    ) -> Outcome
        ensures is { (the_state self.new.tally table.new (L.bag list.new), result)
            ≡ advanced (the_graph g.now) (B.number rule.now) self.old.sizes
            (L.limit list.old) budget
            (the_state self.old.tally table.old (L.bag list.old)) }
        ensures ends { EndsBy (the_graph g.now) self.old.sizes (L.limit list.old) budget
            (the_state self.old.tally table.old (L.bag list.old))
            (the_state self.new.tally table.new (L.bag list.new), result) }
        ensures onward { GoesOnTo (the_graph g.now) (B.number rule.now) self.old.sizes
            (L.limit list.old) budget (the_state self.old.tally table.old (L.bag list.old))
            (the_state self.new.tally table.new (L.bag list.new)) }
        ensures course { Course (the_graph g.now) (B.number rule.now)
            (the_state self.old.tally table.old (L.bag list.old))
            (the_state self.new.tally table.new (L.bag list.new)) }
        ensures still { self.new.tally.expanded ≡ self.old.tally.expanded → list.new ≡ list.old }
        ensures kept { let most = length (L.bag list.old)
            + (self.new.tally.stored - self.old.tally.stored) in
            Kept L.bag L.kept most list.old list.new }
        ensures sizes { self.new.sizes ≡ self.old.sizes }
        ensures limit { L.limit list.new ≡ L.limit list.old }
        ensures run { Run (the_graph g.now) (B.number rule.now) false
            (moment self.old table.old (L.bag list.old) (L.limit list.old))
            → Run (the_graph g.now) (B.number rule.now) false
            (moment self.new table.new (L.bag list.new) (L.limit list.new)) }
        ensures since { (m : Moment) → Since (the_graph g.now) (B.number rule.now) m
            (moment self.old table.old (L.bag list.old) (L.limit list.old))
            → Since (the_graph g.now) (B.number rule.now) m
            (moment self.new table.new (L.bag list.new) (L.limit list.new)) }
        ensures never { Run (the_graph g.now) (B.number rule.now) false
            (moment self.old table.old (L.bag list.old) (L.limit list.old)) → result ≢ Strange }
        ensures met { Run (the_graph g.now) (B.number rule.now) false
            (moment self.old table.old (L.bag list.old) (L.limit list.old)) → result ≡ Met
            → Settles (the_graph g.now)
            (moment self.new table.new (L.bag list.new) (L.limit list.new)) }
        ensures promise { Promised (the_graph g.now) }
    {
        self.spend(g, rule, table, list, budget)
    }

    // The floor: the lesser of the best length and the least bound in the list. In a run no feasible schedule is shorter.
    pub fn floor<L: OpenList>(
        &self,
        g: &TaskGraph,
        table: &Table,
        list: &mut L,
    ) -> Result<u64, SearchFault>
        ensures is { result ≡ answer_or
            (laws.floor (the_state self.now.tally table.now (L.bag list.old)))
            (floor_fault (the_graph g.now) self.now.sizes
            (the_state self.now.tally table.now (L.bag list.old)) (L.limit list.old)) }
        ensures refused { Refuses (FloorRefused (the_graph g.now) self.now.sizes (L.limit list.old)
            (the_state self.now.tally table.now (L.bag list.old))) search_refusal result }
        ensures least { IfOk result (λ v. LeastOf
            (the_state self.now.tally table.now (L.bag list.old)) v) }
        ensures same { list.new ≡ list.old }
        ensures run { (done : Bool)
            → InRun (the_graph g.now) done
            (moment self.now table.now (L.bag list.old) (L.limit list.old))
            → (result
            ≡ Ok (floor (moment self.now table.now (L.bag list.old) (L.limit list.old))))
            × ((p : Schedule) → Feasible (the_graph g.now) p
            → floor (moment self.now table.now (L.bag list.old) (L.limit list.old))
            ≤ makespan (the_graph g.now) p) }
        ensures promise { Promised (the_graph g.now) }
    {
        self.lowest(g, table, list)
    }

    // What the search has done.
    pub fn tally(&self) -> Tally
        ensures is { result ≡ self.now.tally }
        ensures made { result.generated
            ≡ result.stored + result.duplicates + result.pruned + result.complete }
        ensures waiting { result.waiting + result.expanded ≡ result.stored + 1 }
    {
        self.tally
    }

    // Writes the best schedule's rows, one for each task, and answers its length. In a run it is feasible, and given
    // room it is written.
    pub fn best<L: OpenList>(
        &self,
        g: &TaskGraph,
        table: &Table,
        list: &mut L,
        rows: &mut [Placement],
    ) -> Result<u64, PageFault>
        ensures is { result ≡ answer_or
            (best_length (the_state self.now.tally table.now (L.bag list.old)))
            (best_fault (the_graph g.now) self.now.sizes
            (the_state self.now.tally table.now (L.bag list.old)) (L.limit list.old)
            (length rows.old)) }
        ensures refused { Refuses (WriteRefused (the_graph g.now) self.now.sizes (L.limit list.old)
            (the_state self.now.tally table.now (L.bag list.old)) (the_graph g.now).tasks
            (length rows.old)) page_refusal result }
        ensures rows { rows.new
            ≡ left_or (with_rows (the_graph g.now)
            (node_at (the_nodes table.now) 0).partial rows.old) rows.old
            (best_fault (the_graph g.now) self.now.sizes
            (the_state self.now.tally table.now (L.bag list.old)) (L.limit list.old)
            (length rows.old)) }
        ensures each { IfOk result (λ _. (t : ℕ) → t < (the_graph g.now).tasks
            → slice_index_or rows.new t blank ≡ row_of (node_at (the_nodes table.now) 0).partial t) }
        ensures behind { IfOk result (λ _. drop (the_graph g.now).tasks rows.new
            ≡ drop (the_graph g.now).tasks rows.old) }
        ensures written { IfOk result (λ v. Feasible (the_graph g.now) (schedule_of rows.new)
            × (makespan (the_graph g.now) (schedule_of rows.new) ≡ v)) }
        ensures same { list.new ≡ list.old }
        ensures run { (done : Bool)
            → InRun (the_graph g.now) done
            (moment self.now table.now (L.bag list.old) (L.limit list.old))
            → (the_graph g.now).tasks ≤ length rows.old
            → (result ≡ Ok (makespan (the_graph g.now)
            (best (moment self.now table.now (L.bag list.old) (L.limit list.old)))))
            × Feasible (the_graph g.now)
            (best (moment self.now table.now (L.bag list.old) (L.limit list.old))) }
        ensures promise { Promised (the_graph g.now) }
    {
        self.write_best(g, table, list, rows)
    }

    // Gives up the search and yields a settled one, or hands it back. In a run it is accepted exactly when floor and
    // best length are equal, and then no feasible schedule is shorter than the best.
    pub fn settle<L: OpenList>(
        self,
        g: &TaskGraph,
        table: &Table,
        list: &mut L,
    ) -> Result<Settled, (SearchFault, Search)>
        ensures is { MatchResult result
            (λ d. (settle_fault (the_graph g.now) self.sizes
            (the_state self.tally table.now (L.bag list.old)) (L.limit list.old) ≡ None)
            × (d.search ≡ self))
            (λ e. (settle_fault (the_graph g.now) self.sizes
            (the_state self.tally table.now (L.bag list.old)) (L.limit list.old) ≡ Some e.0)
            × (e.1 ≡ self)) }
        ensures refused { Refuses (SettleRefused (the_graph g.now) self.sizes (L.limit list.old)
            (the_state self.tally table.now (L.bag list.old))) (λ e. search_refusal e.0) result }
        ensures same { list.new ≡ list.old }
        ensures run { (b : Bound) → Run (the_graph g.now) b false
            (moment self table.now (L.bag list.old) (L.limit list.old))
            → IfOk result (λ d. Run (the_graph g.now) b true
            (moment d.search table.now (L.bag list.old) (L.limit list.old))) }
        ensures shortest { InRun (the_graph g.now) false
            (moment self table.now (L.bag list.old) (L.limit list.old))
            → (IsOk result ↔ (floor (moment self table.now (L.bag list.old) (L.limit list.old))
            ≡ promise.length (moment self table.now (L.bag list.old) (L.limit list.old))))
            × (IsOk result → IsShortest (the_graph g.now)
            (best (moment self table.now (L.bag list.old) (L.limit list.old))))
            × IfErr result (λ e. e.0 ≡ Unsettled) }
        ensures promise { Promised (the_graph g.now) }
    {
        match self.settle_fault(g, table, list) {
            None => Ok(Settled { search: self }),
            Some(fault) => Err((fault, self)),
        }
    }
}
