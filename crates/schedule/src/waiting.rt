ghost use Rattle.std.specs.Prelude.{◌≡◌, ◌<◌, ◌≤◌, [], length};
ghost use Rattle.std.specs.Option.{option_map};
ghost use Rattle.bag.specs.Bag.{insert, first, rest};
ghost use Rattle.loader.specs.Meaning.{the_graph};
ghost use Rattle.partial.specs.Meaning.{the_partial};
ghost use Rattle.queue.specs.ReadyTasks.{ready_before};
ghost use Rattle.queue.specs.ReadyBags.{ready_bag, ready_room};
ghost use Rattle.schedule.specs.Waiting.{ready_task, free_tasks, released_by};

use loader::graph::TaskGraph;
use partial::partial::PartialSchedule;
use queue::ready::ReadyTask;
use queue::ready::ready_heap::ReadyHeap;

// Tasks that wait for their turn, with room for those of any graph. Graph and partial schedule are
// lent at each call, since the partial schedule is another one after each turn.
#[derive(Drop)]
pub(crate) struct WaitingTasks<'a> {
    heap: ReadyHeap<'a>,
    ghost room: { ready_room heap ≡ 32 },
}

impl WaitingTasks<'_> {
    // None wait.
    pub(crate) fn start(slots: &mut [ReadyTask; 32]) -> WaitingTasks<'_>
        ensures { ready_bag result.heap ≡ [] }
    {
        WaitingTasks {
            heap: ReadyHeap::start(slots),
        }
    }

    // Task t waits for its turn.
    fn enlist(&mut self, g: &TaskGraph, t: usize)
        requires task { t < (the_graph g.now).tasks }
        requires room { length (ready_bag self.old.heap) < 32 }
        ensures { ready_bag self.new.heap
            ≡ insert ready_before (ready_task (the_graph g.now) t) (ready_bag self.old.heap) }
    {
        let level = g.bottom_levels()[t];
        self.heap.put(ReadyTask { level, task: t });
    }

    // Every free task waits for its turn.
    pub(crate) fn enlist_free(&mut self, g: &TaskGraph, q: &PartialSchedule)
        requires { ready_bag self.old.heap ≡ [] }
        ensures { ready_bag self.new.heap ≡ free_tasks (the_graph g.now) (the_partial q.now) }
    {
        for t in 0..g.tasks() {
            if q.is_free(g, t) {
                self.enlist(g, t);
            }
        }
    }

    // The tasks that task t, just placed, leads to wait for their turn if they are free now.
    pub(crate) fn release(&mut self, g: &TaskGraph, q: &PartialSchedule, t: usize)
        requires { length
            (released_by (the_graph g.now) (the_partial q.now) t (ready_bag self.old.heap)) ≤ 32 }
        ensures { ready_bag self.new.heap
            ≡ released_by (the_graph g.now) (the_partial q.now) t (ready_bag self.old.heap) }
    {
        for e in g.transfers() {
            let (from, to) = (usize::from(e.from), usize::from(e.to));
            if from == t && q.is_free(g, to) {
                self.enlist(g, to);
            }
        }
    }

    // Takes out the task whose turn it is: the one with the greatest bottom level, among equals the
    // lowest number.
    pub(crate) fn take(&mut self) -> Option<usize>
        ensures is { result ≡ option_map (λ x. x.task) (first (ready_bag self.old.heap)) }
        ensures after { ready_bag self.new.heap ≡ rest (ready_bag self.old.heap) }
    {
        self.heap.take().map(|next| next.task)
    }
}
