ghost use Rattle.std.specs.Prelude.{◌≡◌, ◌+◌, ◌^◌, ◌≤◌, ◌↔◌, IsTrue};
ghost use Rattle.model.specs.Partial.{lies_on, machine_finish, data_ready, start_on, Free, is_ready, is_free};
ghost use Rattle.loader.specs.Meaning.{the_graph};
ghost use Rattle.partial.specs.Meaning.{the_partial};
ghost use Rattle.partial.specs.Transfers.{transfer_arrival, transfer_fed};

use crate::partial::PartialSchedule;
use loader::graph::TaskGraph;
use loader::transfer::Transfer;

// Each time promises its bound itself: a type for it would be unwrapped at each sum and comparison.
// Graph, task and machine stay apart: a caller asks of many tasks and machines, each once.
impl PartialSchedule {
    // Whether task u is placed on machine m.
    pub fn lies_on(&self, m: u8, u: usize) -> bool
        ensures { result ≡ lies_on (the_partial self.now) m u }
    {
        self.placement(u).is_some_and(|p| p.machine == m)
    }

    // The start of task u plus its work, 0 for what it lacks.
    pub fn finish(&self, g: &TaskGraph, u: usize) -> u64
        ensures is { result ≡ (the_partial self.now).start u + (the_graph g.now).work u }
        ensures small { result ≤ 2 ^ 32 + 2 ^ 16 }
    {
        u64::from(self.start(u)) + u64::from(g.work(u))
    }

    // The greatest finish of the tasks placed on machine m, or 0.
    pub fn machine_finish(&self, g: &TaskGraph, m: u8) -> u64
        ensures is { result ≡ machine_finish (the_graph g.now) (the_partial self.now) m }
        ensures small { result ≤ 2 ^ 33 }
    {
        (0..g.tasks())
            .filter(|u| self.lies_on(m, *u))
            .map(|u| self.finish(g, u))
            .max()
            .unwrap_or(0)
    }

    // When the data of transfer e arrives on machine m.
    fn arrival(&self, g: &TaskGraph, m: u8, e: &Transfer) -> u64
        ensures is { result ≡ transfer_arrival (the_graph g.now) (the_partial self.now) m e.now }
        ensures small { result ≤ 2 ^ 33 }
    {
        let u = usize::from(e.from);
        self.finish(g, u) + u64::from(e.delay(self.machine(u), m))
    }

    // The data ready time of task t on machine m.
    pub fn data_ready(&self, g: &TaskGraph, t: usize, m: u8) -> u64
        ensures is { result ≡ data_ready (the_graph g.now) (the_partial self.now) t m }
        ensures small { result ≤ 2 ^ 33 }
    {
        g.transfers()
            .iter()
            .filter(|e| usize::from(e.to) == t)
            .map(|e| self.arrival(g, m, e))
            .max()
            .unwrap_or(0)
    }

    // Where task t would start on machine m.
    pub fn start_on(&self, g: &TaskGraph, t: usize, m: u8) -> u64
        ensures is { result ≡ start_on (the_graph g.now) (the_partial self.now) t m }
        ensures small { result ≤ 2 ^ 33 }
    {
        self.data_ready(g, t, m).max(self.machine_finish(g, m))
    }

    // Whether transfer e leads elsewhere than to task t, or from a placed task.
    fn is_fed(&self, t: usize, e: &Transfer) -> bool
        ensures { result ≡ transfer_fed (the_partial self.now) t e.now }
    {
        usize::from(e.to) != t || self.is_placed(usize::from(e.from))
    }

    // Whether task t is not placed and all its predecessors are.
    fn is_ready(&self, g: &TaskGraph, t: usize) -> bool
        ensures { result ≡ is_ready (the_graph g.now) (the_partial self.now) t }
    {
        !self.is_placed(t) && g.transfers().iter().all(|e| self.is_fed(t, e))
    }

    // Whether task t is a free task of the graph.
    pub fn is_free(&self, g: &TaskGraph, t: usize) -> bool
        ensures is { result ≡ is_free (the_graph g.now) (the_partial self.now) t }
        ensures law { IsTrue result ↔ Free (the_graph g.now) (the_partial self.now) t }
    {
        t < g.tasks() && self.is_ready(g, t)
    }
}
