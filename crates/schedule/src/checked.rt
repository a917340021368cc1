ghost use Rattle.std.specs.Prelude.{◌≡◌, length, take, MatchResult};
ghost use Rattle.model.specs.Schedule.{makespan};
ghost use Rattle.model.specs.Partial.{whole};
ghost use Rattle.loader.specs.Meaning.{the_graph};
ghost use Rattle.partial.specs.Meaning.{the_partial};
ghost use Rattle.schedule.specs.Rows.{schedule_of};
ghost use Rattle.schedule.specs.ListSchedule.{listed};
ghost use Rattle.schedule.specs.Judged.{Passes};

use crate::check::check;
use crate::fault::CheckFault;
use crate::list::list_schedule;
use loader::graph::TaskGraph;
use partial::partial::PartialSchedule;
use partial::placement::Placement;
use std::array;

// The rows of a schedule, of which the first `tasks` count, and its makespan.
// An array that holds the rows of any graph: fixed memory, as there is no heap below the programs.
#[derive(Clone, Copy, PartialEq, Eq, Debug)]
pub struct CheckedSchedule {
    pub rows: [Placement; 32],
    pub makespan: u64,
}

// A row for each task; machine and start of a task that is not placed are 0.
// A `From` would be no plainer: it would not say that a task that is not placed gets a row too.
pub fn rows(q: &PartialSchedule) -> [Placement; 32]
    ensures len { length result ≡ 32 }
    ensures is { schedule_of result ≡ whole (the_partial q.now) }
{
    array::from_fn(|t| Placement {
        machine: q.machine(t),
        start: q.start(t),
    })
}

// The rows of the graph's tasks.
fn task_rows<'a>(g: &TaskGraph, rows: &'a [Placement; 32]) -> &'a [Placement]
    ensures { result.now ≡ take (the_graph g.now).tasks rows.now }
{
    &rows[..g.tasks()]
}

// The list schedule of a graph, checked against the rules: the check always passes it.
pub fn checked_list_schedule(g: &TaskGraph) -> Result<CheckedSchedule, CheckFault>
    ensures is { MatchResult result
        (λ p. (schedule_of p.rows ≡ whole (listed (the_graph g.now) (the_graph g.now).tasks))
        × (p.makespan ≡ makespan (the_graph g.now) (schedule_of p.rows)))
        (λ _. ⊥) }
    ensures passes { MatchResult result
        (λ p. Passes (the_graph g.now) (take (the_graph g.now).tasks p.rows)) (λ _. ⊥) }
{
    let rows = rows(&list_schedule(g));
    let makespan = check(g, task_rows(g, &rows))?;
    Ok(CheckedSchedule { rows, makespan })
}
