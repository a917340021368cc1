ghost use Rattle.std.specs.Prelude.{◌≡◌};
ghost use Rattle.loader.specs.Meaning.{the_graph};
ghost use Rattle.partial.specs.Meaning.{the_partial};
ghost use Rattle.custom.specs.Finishes.{finish_at};

use bounds::lower_bound::LowerBound;
use loader::graph::TaskGraph;
use partial::partial::PartialSchedule;

/// A lower bound: the latest finish of the tasks placed so far, 0 where none is placed.
#[derive(Clone, Copy)]
pub struct LatestFinish;

// The finish of task t if it is placed, else 0.
fn finish_at(g: &TaskGraph, q: &PartialSchedule, t: usize) -> u64
    ensures { result ≡ finish_at (the_graph g.now) (the_partial q.now) t }
{
    if q.is_placed(t) { q.finish(g, t) } else { 0 }
}

impl LowerBound for LatestFinish {
    ghost use Rattle.custom.specs.Finishes.{latest_finish};
    ghost use Rattle.custom.specs.FinishLaws.{latest-lower};

    ghost number = { λ _. latest_finish };

    ghost lower = { λ _. latest-lower };

    fn bound(&self, g: &TaskGraph, q: &PartialSchedule) -> u64 {
        (0..g.tasks())
            .map(|t| finish_at(g, q, t))
            .max()
            .unwrap_or(0)
    }
}
