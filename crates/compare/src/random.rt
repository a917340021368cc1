ghost use Rattle.std.specs.Prelude.{◌<◌};

use crate::sketch::{MOST, Sketch, TINY};

// A random generator by its state.
#[derive(Clone, Copy)]
pub(crate) struct Random {
    pub(crate) state: u32,
}

impl Random {
    // A number below `end`.
    fn below(&mut self, end: u16) -> u16
        requires { 0 < end }
        ensures { result < end }
    {
        self.state = self.state.wrapping_mul(1664525).wrapping_add(1013904223);
        (self.state / 65536) as u16 % end
    }

    // Numbers from 1 to `most`.
    fn numbers(&mut self, most: u16) -> [u16; MOST]
        requires { 0 < most }
    {
        let mut numbers = [0; MOST];
        for number in &mut numbers {
            *number = self.below(most) + 1;
        }
        numbers
    }

    // Transfers lead from lower to higher ranks, so that there is no cycle, and as often from higher to lower task
    // numbers as the other way. Of three such pairs of tasks `share` have one.
    fn costs(&mut self, tasks: usize, most: u16) -> [[Option<u16>; MOST]; MOST]
        requires { most < 65535 }
    {
        let share = self.below(4);
        let ranks = self.numbers(1000);
        let mut costs = [[None; MOST]; MOST];
        for pair in 0..MOST * MOST {
            let (u, t) = (pair / MOST, pair % MOST);
            let cost = self.below(most + 1);
            let is_drawn = self.below(3) < share;
            if is_drawn && u < tasks && t < tasks && ranks[u] < ranks[t] {
                costs[u][t] = Some(cost);
            }
        }
        costs
    }

    // A sketch of so many tasks and machines, with a greatest work and a greatest cost of its own. They are less where every
    // start is to be tried.
    pub(crate) fn sketch(&mut self, tasks: usize, machines: u8) -> Sketch {
        let most = if tasks <= TINY { 3 } else { 9 };
        let most_work = self.below(most) + 1;
        let most_cost = self.below(most) + 1;
        Sketch {
            tasks,
            machines,
            works: self.numbers(most_work),
            costs: self.costs(tasks, most_cost),
        }
    }
}
