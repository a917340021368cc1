ghost use Rattle.std.specs.Prelude.{◌≡◌, ℕ, ◌+◌, ◌<◌, ◌≤◌, true, length, drop, slice_index_or, Ok, IfOk};
ghost use Rattle.model.specs.Schedule.{Schedule, Feasible, makespan};
ghost use Rattle.model.specs.Nodes.{node_at};
ghost use Rattle.loader.specs.Meaning.{the_graph};
ghost use Rattle.schedule.specs.Rows.{blank, schedule_of};
ghost use Rattle.nodes.specs.Meaning.{the_nodes};
ghost use Rattle.astar.specs.States.{best_length};
ghost use Rattle.astar.specs.Laws.{LeastOf};
ghost use Rattle.astar.specs.Laws as laws;
ghost use Rattle.search.specs.Calls.{floor_fault, best_fault, answer_or, left_or, row_of, with_rows};
ghost use Rattle.refusal.specs.Refusing.{Refuses};
ghost use Rattle.search.specs.Refusals.{search_refusal, page_refusal};
ghost use Rattle.search.specs.Refused.{FloorRefused, WriteRefused};
ghost use Rattle.search.specs.States.{the_state, moment};
ghost use Rattle.search.specs.Promise.{floor, best, IsShortest, Promised, InRun};

use crate::fault::{PageFault, SearchFault};
use crate::search::Settled;
use astar::tally::Tally;
use loader::graph::TaskGraph;
use nodes::table::Table;
use partial::placement::Placement;
use queue::open_list::OpenList;

// The calls of a settled search: those of a search that change nothing.
impl Settled {
    // The floor, as of a search. In a run it is the best length.
    pub fn floor<L: OpenList>(
        &self,
        g: &TaskGraph,
        table: &Table,
        list: &mut L,
    ) -> Result<u64, SearchFault>
        ensures is { result ≡ answer_or
            (laws.floor (the_state self.now.search.tally table.now (L.bag list.old)))
            (floor_fault (the_graph g.now) self.now.search.sizes
            (the_state self.now.search.tally table.now (L.bag list.old)) (L.limit list.old)) }
        ensures refused { Refuses (FloorRefused (the_graph g.now) self.now.search.sizes
            (L.limit list.old) (the_state self.now.search.tally table.now (L.bag list.old)))
            search_refusal result }
        ensures least { IfOk result (λ v. LeastOf
            (the_state self.now.search.tally table.now (L.bag list.old)) v) }
        ensures same { list.new ≡ list.old }
        ensures run { InRun (the_graph g.now) true
            (moment self.now.search table.now (L.bag list.old) (L.limit list.old))
            → (result ≡ Ok (floor (moment self.now.search table.now (L.bag list.old)
            (L.limit list.old))))
            × ((p : Schedule) → Feasible (the_graph g.now) p
            → floor (moment self.now.search table.now (L.bag list.old) (L.limit list.old))
            ≤ makespan (the_graph g.now) p) }
        ensures promise { Promised (the_graph g.now) }
    {
        self.search.floor(g, table, list)
    }

    // What the search has done.
    pub fn tally(&self) -> Tally
        ensures is { result ≡ self.now.search.tally }
        ensures made { result.generated
            ≡ result.stored + result.duplicates + result.pruned + result.complete }
        ensures waiting { result.waiting + result.expanded ≡ result.stored + 1 }
    {
        self.search.tally()
    }

    // Writes the best schedule's rows and answers its length, as of a search. In a run no feasible schedule is shorter.
    pub fn best<L: OpenList>(
        &self,
        g: &TaskGraph,
        table: &Table,
        list: &mut L,
        rows: &mut [Placement],
    ) -> Result<u64, PageFault>
        ensures is { result ≡ answer_or
            (best_length (the_state self.now.search.tally table.now (L.bag list.old)))
            (best_fault (the_graph g.now) self.now.search.sizes
            (the_state self.now.search.tally table.now (L.bag list.old)) (L.limit list.old)
            (length rows.old)) }
        ensures refused { Refuses (WriteRefused (the_graph g.now) self.now.search.sizes
            (L.limit list.old) (the_state self.now.search.tally table.now (L.bag list.old))
            (the_graph g.now).tasks (length rows.old)) page_refusal result }
        ensures rows { rows.new
            ≡ left_or (with_rows (the_graph g.now)
            (node_at (the_nodes table.now) 0).partial rows.old) rows.old
            (best_fault (the_graph g.now) self.now.search.sizes
            (the_state self.now.search.tally table.now (L.bag list.old)) (L.limit list.old)
            (length rows.old)) }
        ensures each { IfOk result (λ _. (t : ℕ) → t < (the_graph g.now).tasks
            → slice_index_or rows.new t blank ≡ row_of (node_at (the_nodes table.now) 0).partial t) }
        ensures behind { IfOk result (λ _. drop (the_graph g.now).tasks rows.new
            ≡ drop (the_graph g.now).tasks rows.old) }
        ensures written { IfOk result (λ v. Feasible (the_graph g.now) (schedule_of rows.new)
            × (makespan (the_graph g.now) (schedule_of rows.new) ≡ v)) }
        ensures same { list.new ≡ list.old }
        ensures run { InRun (the_graph g.now) true
            (moment self.now.search table.now (L.bag list.old) (L.limit list.old))
            → (the_graph g.now).tasks ≤ length rows.old
            → (result ≡ Ok (makespan (the_graph g.now)
            (best (moment self.now.search table.now (L.bag list.old) (L.limit list.old)))))
            × IsShortest (the_graph g.now)
            (best (moment self.now.search table.now (L.bag list.old) (L.limit list.old))) }
        ensures promise { Promised (the_graph g.now) }
    {
        self.search.best(g, table, list, rows)
    }
}
