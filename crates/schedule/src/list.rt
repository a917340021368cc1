ghost use Rattle.std.specs.Prelude.{◌≡◌};
ghost use Rattle.std.specs.Option.{IsSomeAnd};
ghost use Rattle.model.specs.Schedule.{Feasible};
ghost use Rattle.model.specs.Partial.{Complete, Free, Unfinished, nothing, whole};
ghost use Rattle.model.specs.Reachable.{Reachable};
ghost use Rattle.loader.specs.Meaning.{the_graph};
ghost use Rattle.partial.specs.Meaning.{the_partial};
ghost use Rattle.queue.specs.ReadyBags.{ready_bag};
ghost use Rattle.schedule.specs.ListSchedule.{next_free, earliest, extend, one_more, listed};
ghost use Rattle.schedule.specs.ListSchedule.{Next, Earliest, ByRule};
ghost use Rattle.schedule.specs.Waiting.{free_tasks};

use crate::waiting::WaitingTasks;
use loader::graph::TaskGraph;
use partial::partial::PartialSchedule;
use queue::ready::ReadyTask;
use std::cmp::Reverse;

// Graph and partial schedule stay apart: callers ask about any partial schedule of a graph.

// The free task with the greatest bottom level, among equals the lowest number; None where none is free.
pub fn next_task(g: &TaskGraph, q: &PartialSchedule) -> Option<usize>
    ensures is { result ≡ next_free (the_graph g.now) (the_partial q.now) }
    ensures law { Unfinished (the_graph g.now) (the_partial q.now)
        → IsSomeAnd result (Next (the_graph g.now) (the_partial q.now)) }
{
    let levels = g.bottom_levels();
    (0..g.tasks())
        .filter(|&t| q.is_free(g, t))
        .min_by_key(|&t| Reverse(levels[t]))
}

// The machine where task t starts earliest, among equals the lowest.
pub fn earliest_machine(g: &TaskGraph, q: &PartialSchedule, t: usize) -> u8
    ensures is { result
        ≡ earliest (the_graph g.now) (the_partial q.now) t (the_graph g.now).machines }
    ensures law { Earliest (the_graph g.now) (the_partial q.now) t result }
{
    (0..g.machines() as u8)
        .min_by_key(|&m| q.start_on(g, t, m))
        .unwrap_or(0)
}

// Task t on the machine where it starts earliest.
fn extend(g: &TaskGraph, q: &PartialSchedule, t: usize) -> PartialSchedule
    requires state { ∥ Reachable (the_graph g.now) (the_partial q.now) ∥₁ }
    requires task { Free (the_graph g.now) (the_partial q.now) t }
    ensures { the_partial result ≡ extend (the_graph g.now) (the_partial q.now) t }
{
    let m = earliest_machine(g, q, t);
    q.child(g, t, m).unwrap()
}

// The list schedule under way: the tasks placed so far, and the free ones, which wait for their
// turn.
#[derive(Drop)]
struct Listing<'a> {
    graph: &'a TaskGraph,
    placed: PartialSchedule,
    waiting: WaitingTasks<'a>,
    ghost reachable: { ∥ Reachable (the_graph graph.now) (the_partial placed) ∥₁ },
    ghost free: { ready_bag waiting.heap ≡ free_tasks (the_graph graph.now) (the_partial placed) },
}

impl<'a> Listing<'a> {
    // Nothing is placed.
    fn start(graph: &'a TaskGraph, slots: &'a mut [ReadyTask; 32]) -> Listing<'a>
        ensures graph { result.graph.now ≡ graph.now }
        ensures placed { the_partial result.placed ≡ nothing }
    {
        let placed = PartialSchedule::empty();
        let mut waiting = WaitingTasks::start(slots);
        waiting.enlist_free(graph, &placed);
        Listing {
            graph,
            placed,
            waiting,
        }
    }

    // The first of the tasks that wait is placed, and those that it releases wait from then on.
    fn turn(&mut self)
        requires { Unfinished (the_graph self.old.graph.now) (the_partial self.old.placed) }
        ensures graph { self.new.graph.now ≡ self.old.graph.now }
        ensures placed { the_partial self.new.placed
            ≡ one_more (the_graph self.old.graph.now) (the_partial self.old.placed) }
    {
        let t = self.waiting.take().unwrap();
        self.placed = extend(self.graph, &self.placed, t);
        self.waiting.release(self.graph, &self.placed, t);
    }
}

// The list schedule: task by task, each appended where it starts earliest.
pub fn list_schedule(g: &TaskGraph) -> PartialSchedule
    ensures is { the_partial result ≡ listed (the_graph g.now) (the_graph g.now).tasks }
    ensures rule { ByRule (the_graph g.now) (the_graph g.now).tasks (the_partial result) }
    ensures complete { Complete (the_graph g.now) (the_partial result) }
    ensures feasible { Feasible (the_graph g.now) (whole (the_partial result)) }
    ensures reachable { Reachable (the_graph g.now) (the_partial result) }
{
    // Fixed memory, since there is no heap below the programs: a slot for each task of any graph.
    let mut slots = [ReadyTask { level: 0, task: 0 }; 32];
    let mut list = Listing::start(g, &mut slots);
    for _ in 0..g.tasks() {
        list.turn();
    }
    list.placed
}
