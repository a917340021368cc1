use bag::order::TotalOrder;
use std::cmp::Reverse;

pub mod ready_heap;

// A task that is ready to be placed, with its bottom level.
#[derive(Clone, Copy, PartialEq, Eq, Debug)]
pub struct ReadyTask {
    pub level: u32,
    pub task: usize,
}

// The greater bottom level comes first, among equals the lower task number.
impl TotalOrder for ReadyTask {
    ghost use Rattle.queue.specs.ReadyTasks.{ready_before};
    ghost use Rattle.queue.specs.ReadyOrder.{tasks-ordered};

    ghost before = { ready_before };

    ghost total = { tasks-ordered };

    fn comes_before(&self, other: &ReadyTask) -> bool {
        (Reverse(self.level), self.task) < (Reverse(other.level), other.task)
    }
}
