ghost use Rattle.std.specs.Prelude.{◌≡◌, ◌↔◌, IsTrue};
ghost use Rattle.model.specs.Schedule.{makespan};
ghost use Rattle.model.specs.Partial.{Complete, whole};
ghost use Rattle.model.specs.Soundness.{is_complete};
ghost use Rattle.loader.specs.Meaning.{the_graph};
ghost use Rattle.partial.specs.Meaning.{the_partial};

use loader::graph::TaskGraph;
use partial::partial::PartialSchedule;

// Whether every task of the graph is placed.
pub fn is_complete(g: &TaskGraph, q: &PartialSchedule) -> bool
    ensures is { result ≡ is_complete (the_graph g.now) (the_partial q.now) }
    ensures law { IsTrue result ↔ Complete (the_graph g.now) (the_partial q.now) }
{
    (0..g.tasks()).all(|t| q.is_placed(t))
}

// The greatest finish; a task that is not placed counts its work from 0.
pub fn makespan(g: &TaskGraph, q: &PartialSchedule) -> u64
    ensures { result ≡ makespan (the_graph g.now) (whole (the_partial q.now)) }
{
    (0..g.tasks()).map(|t| q.finish(g, t)).max().unwrap_or(0)
}
