ghost use Rattle.std.specs.Prelude.{◌≡◌, ◌<◌, ◌≤◌, ◌^◌};
ghost use Rattle.model.specs.Bounds.{earliest_data, arrival_at};
ghost use Rattle.loader.specs.Meaning.{the_graph};
ghost use Rattle.partial.specs.Meaning.{the_partial};

use crate::lower_bound::LowerBound;
use loader::graph::TaskGraph;
use partial::partial::PartialSchedule;

// The greatest, over free tasks, of the least data ready time on any machine plus the bottom level.
#[derive(Clone, Copy)]
pub struct ArrivalBound;

// The least data ready time of task t on any machine.
fn earliest_data(g: &TaskGraph, q: &PartialSchedule, t: usize) -> u64
    ensures is { result ≡ earliest_data (the_graph g.now) (the_partial q.now) t }
    ensures small { result ≤ 2 ^ 33 }
{
    let mut earliest = q.data_ready(g, t, 0);
    for m in 1..g.machines() as u8 {
        earliest = earliest.min(q.data_ready(g, t, m));
    }
    earliest
}

// Least data ready time plus bottom level of task t if it is free, else 0.
fn arrival_at(g: &TaskGraph, q: &PartialSchedule, t: usize) -> u64
    requires { t < (the_graph g.now).tasks }
    ensures { result ≡ arrival_at (the_graph g.now) (the_partial q.now) t }
{
    if q.is_free(g, t) {
        earliest_data(g, q, t) + u64::from(g.bottom_levels()[t])
    } else {
        0
    }
}

impl LowerBound for ArrivalBound {
    ghost use Rattle.model.specs.Bounds.{arrival_bound};
    ghost use Rattle.model.proofs.Paths.{arrival-lower};

    ghost number = { λ _. arrival_bound };

    ghost lower = { λ _. arrival-lower };

    fn bound(&self, g: &TaskGraph, q: &PartialSchedule) -> u64 {
        (0..g.tasks())
            .map(|t| arrival_at(g, q, t))
            .max()
            .unwrap_or(0)
    }
}
