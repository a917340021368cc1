use partial::placement::Placement;

// The most tasks of a sketch.
pub(crate) const MOST: usize = 5;

// Sketches of up to so many tasks are tiny.
pub(crate) const TINY: usize = 3;

// What fills the rows of tasks that are not there.
pub(crate) const BLANK: Placement = Placement {
    machine: 0,
    start: 0,
};

// A small graph as this program tells it: its tasks, their work, its machines, and the cost of the transfer from one
// task to another, where there is one. The first `tasks` works count.
#[derive(Clone, Copy)]
pub(crate) struct Sketch {
    pub(crate) tasks: usize,
    pub(crate) machines: u8,
    pub(crate) works: [u16; MOST],
    pub(crate) costs: [[Option<u16>; MOST]; MOST],
}

impl Sketch {
    // The work of task t, 0 where the sketch lacks it.
    pub(crate) fn work(&self, t: usize) -> u16 {
        if t < self.tasks {
            self.works.get(t).copied().unwrap_or(0)
        } else {
            0
        }
    }

    // The cost of the transfer from task u to task t.
    pub(crate) fn cost(&self, u: usize, t: usize) -> Option<u16> {
        *self.costs.get(u)?.get(t)?
    }

    // The sum of all works and costs: a start that no task needs to pass.
    pub(crate) fn sum(&self) -> u32 {
        let mut sum: u32 = 0;
        for pair in 0..MOST * MOST {
            let cost = self.cost(pair / MOST, pair % MOST).unwrap_or(0);
            sum = sum.saturating_add(u32::from(cost));
        }
        for t in 0..self.tasks {
            sum = sum.saturating_add(u32::from(self.work(t)));
        }
        sum
    }
}
