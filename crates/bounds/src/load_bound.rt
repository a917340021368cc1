ghost use Rattle.std.specs.Prelude.{◌≡◌, ◌+◌, ◌*◌, ◌^◌, ◌≤◌, ◌<◌};
ghost use Rattle.model.specs.Range.{sum};
ghost use Rattle.model.specs.Bounds.{work_on, placed_work, idle_time};
ghost use Rattle.loader.specs.Meaning.{the_graph};
ghost use Rattle.partial.specs.Meaning.{the_partial};

use crate::lower_bound::LowerBound;
use loader::graph::TaskGraph;
use partial::partial::PartialSchedule;

// All work and the idle time of every machine, divided by the number of machines and rounded up.
#[derive(Clone, Copy)]
pub struct LoadBound;

// The sum of all work.
fn total_work(g: &TaskGraph) -> u64
    ensures is { result ≡ sum (the_graph g.now).tasks (the_graph g.now).work }
    ensures small { result ≤ 2 ^ 21 }
{
    let mut total = 0;
    for t in 0..g.tasks() {
        total += u64::from(g.work(t));
    }
    total
}

// The work of task u if it is placed on machine m, else 0.
fn work_on(g: &TaskGraph, q: &PartialSchedule, m: u8, u: usize) -> u64
    ensures is { result ≡ work_on (the_graph g.now) (the_partial q.now) m u }
    ensures small { result < 2 ^ 16 }
{
    if q.lies_on(m, u) {
        u64::from(g.work(u))
    } else {
        0
    }
}

// The work of the tasks placed on machine m.
fn placed_work(g: &TaskGraph, q: &PartialSchedule, m: u8) -> u64
    ensures { result ≡ placed_work (the_graph g.now) (the_partial q.now) m }
{
    let mut total = 0;
    for u in 0..g.tasks() {
        total += work_on(g, q, m, u);
    }
    total
}

// The idle time of machine m: its finish minus its placed work, at least 0.
fn idle_time(g: &TaskGraph, q: &PartialSchedule, m: u8) -> u64
    ensures is { result ≡ idle_time (the_graph g.now) (the_partial q.now) m }
    ensures small { result ≤ 2 ^ 33 }
{
    q.machine_finish(g, m).saturating_sub(placed_work(g, q, m))
}

// The idle time of every machine.
fn total_idle(g: &TaskGraph, q: &PartialSchedule) -> u64
    ensures is { result
        ≡ sum (the_graph g.now).machines (idle_time (the_graph g.now) (the_partial q.now)) }
    ensures small { result ≤ 2 ^ 36 }
{
    let mut total = 0;
    for m in 0..g.machines() as u8 {
        total += idle_time(g, q, m);
    }
    total
}

impl LowerBound for LoadBound {
    ghost use Rattle.model.specs.Bounds.{load_bound};
    ghost use Rattle.model.proofs.Loads.{load-lower};

    ghost number = { λ _. load_bound };

    ghost lower = { λ _. load-lower };

    fn bound(&self, g: &TaskGraph, q: &PartialSchedule) -> u64 {
        (total_work(g) + total_idle(g, q)).div_ceil(g.machines() as u64)
    }
}
