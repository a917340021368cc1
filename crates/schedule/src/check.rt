ghost use Rattle.std.specs.Prelude.{◌≡◌, MatchResult};
ghost use Rattle.loader.specs.Meaning.{the_graph};
ghost use Rattle.model.specs.Schedule.{Feasible, makespan};
ghost use Rattle.model.specs.Partial.{whole};
ghost use Rattle.partial.specs.Meaning.{the_partial};
ghost use Rattle.schedule.specs.Check.{checked, judged};
ghost use Rattle.refusal.specs.Refusing.{Refuses};
ghost use Rattle.schedule.specs.Judged.{Judged};
ghost use Rattle.schedule.specs.Refusals.{check_refusal};
ghost use Rattle.schedule.specs.Refused.{Broken, CheckRefused};

use crate::checked::rows;
use crate::fault::CheckFault;
use loader::graph::TaskGraph;
use loader::transfer::Transfer;
use partial::partial::PartialSchedule;
use partial::placement::Placement;

// What stands past the last row.
const BLANK: Placement = Placement {
    machine: 0,
    start: 0,
};

// Rows for the tasks of a graph.
#[derive(Clone, Copy)]
struct TaskRows<'a> {
    graph: &'a TaskGraph,
    rows: &'a [Placement],
}

impl TaskRows<'_> {
    ghost use Rattle.std.specs.Prelude.{◌+◌, slice_index_or};
    ghost use Rattle.schedule.specs.Rows.{blank};
    ghost use Rattle.schedule.specs.TaskRows.{rows_graph, rows_schedule};
    ghost use Rattle.schedule.specs.Check.{wrong, transfer_hasty, early, collide, overlaps};
    ghost use Rattle.schedule.specs.Check.{wrong_row, early_task, overlapping_task};

    // Row t, blank past the last one.
    fn row(&self, t: usize) -> Placement
        ensures { result ≡ slice_index_or self.now.rows.now t blank }
    {
        self.rows.get(t).copied().unwrap_or(BLANK)
    }

    // When task t finishes; what the graph lacks has no work.
    fn finish(&self, t: usize) -> u64
        ensures { result ≡ (rows_schedule self.now).start t + (rows_graph self.now).work t }
    {
        u64::from(self.row(t).start) + u64::from(self.graph.work(t))
    }

    // Whether row t is out of range.
    fn is_wrong(&self, t: usize) -> bool
        ensures { result ≡ wrong (rows_graph self.now) (rows_schedule self.now) t }
    {
        let row = self.row(t);
        usize::from(row.machine) >= self.graph.machines() || row.start > 64000
    }

    // Whether transfer e leads to task t, which starts before its data arrives.
    fn is_hasty(&self, t: usize, e: &Transfer) -> bool
        ensures { result ≡ transfer_hasty (rows_graph self.now) (rows_schedule self.now) t e.now }
    {
        let from = self.row(usize::from(e.from));
        let to = self.row(usize::from(e.to));
        let delay = e.delay(from.machine, to.machine);
        let arrival = self.finish(usize::from(e.from)) + u64::from(delay);
        usize::from(e.to) == t && u64::from(to.start) < arrival
    }

    // Whether task t starts before some data arrives.
    fn is_early(&self, t: usize) -> bool
        ensures { result ≡ early (rows_graph self.now) (rows_schedule self.now) t }
    {
        self.graph.transfers().iter().any(|e| self.is_hasty(t, e))
    }

    // Whether t and u are two tasks that run at once on one machine.
    fn do_collide(&self, t: usize, u: usize) -> bool
        ensures { result ≡ collide (rows_graph self.now) (rows_schedule self.now) t u }
    {
        let a = self.row(t);
        let b = self.row(u);
        u != t
            && b.machine == a.machine
            && u64::from(a.start) < self.finish(u)
            && u64::from(b.start) < self.finish(t)
    }

    // Whether task t runs while another runs on its machine.
    fn does_overlap(&self, t: usize) -> bool
        ensures { result ≡ overlaps (rows_graph self.now) (rows_schedule self.now) t }
    {
        (0..self.graph.tasks()).any(|u| self.do_collide(t, u))
    }

    // Three searches, one for each rule: one over a closure would say each test's contract again, which is no plainer.

    // The lowest row out of range.
    fn wrong_row(&self) -> Option<usize>
        ensures { result ≡ wrong_row (rows_graph self.now) (rows_schedule self.now) }
    {
        (0..self.graph.tasks()).find(|&t| self.is_wrong(t))
    }

    // The lowest task that starts before some data arrives.
    fn early_task(&self) -> Option<usize>
        ensures { result ≡ early_task (rows_graph self.now) (rows_schedule self.now) }
    {
        (0..self.graph.tasks()).find(|&t| self.is_early(t))
    }

    // The lowest task that runs while another runs on its machine.
    fn overlapping_task(&self) -> Option<usize>
        ensures { result ≡ overlapping_task (rows_graph self.now) (rows_schedule self.now) }
    {
        (0..self.graph.tasks()).find(|&t| self.does_overlap(t))
    }

    // The greatest finish.
    fn greatest_finish(&self) -> u64
        ensures { result ≡ makespan (rows_graph self.now) (rows_schedule self.now) }
    {
        (0..self.graph.tasks())
            .map(|t| self.finish(t))
            .max()
            .unwrap_or(0)
    }

    // The makespan of the rows, or the first rule that is broken and the lowest task at fault.
    fn judged(&self) -> Result<u64, CheckFault>
        ensures { result ≡ judged (rows_graph self.now) (rows_schedule self.now) }
    {
        if let Some(t) = self.wrong_row() {
            return Err(CheckFault::Rows(t));
        }
        if let Some(t) = self.early_task() {
            return Err(CheckFault::Early(t));
        }
        if let Some(t) = self.overlapping_task() {
            return Err(CheckFault::Overlap(t));
        }
        Ok(self.greatest_finish())
    }
}

// The makespan of the rows, one for each task, or why they are no feasible schedule.
pub fn check(g: &TaskGraph, rows: &[Placement]) -> Result<u64, CheckFault>
    ensures is { result ≡ checked (the_graph g.now) rows.now }
    ensures exactly { Judged (the_graph g.now) rows.now result }
    ensures refused { Refuses (CheckRefused (the_graph g.now) rows.now) check_refusal result }
{
    if rows.len() != g.tasks() {
        return Err(CheckFault::Rows(g.tasks()));
    }
    TaskRows { graph: g, rows }.judged()
}

// The same of a partial schedule read as a schedule: machine and start of a task that it does not place are 0.
pub fn check_partial(g: &TaskGraph, q: &PartialSchedule) -> Result<u64, CheckFault>
    ensures is { result ≡ judged (the_graph g.now) (whole (the_partial q.now)) }
    ensures exactly { let p = whole (the_partial q.now) in
        MatchResult result
        (λ v. Feasible (the_graph g.now) p × (v ≡ makespan (the_graph g.now) p))
        (λ _. Feasible (the_graph g.now) p → ⊥) }
    ensures refused { Refuses (Broken (the_graph g.now) (whole (the_partial q.now))) check_refusal result }
{
    let rows = rows(q);
    TaskRows {
        graph: g,
        rows: &rows,
    }
    .judged()
}
