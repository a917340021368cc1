use crate::sketch::Sketch;
use partial::placement::Placement;

// The rules of a schedule, told once more and by this program alone: it compares the planner with them.
impl Sketch {
    // When a task that is placed so is done.
    pub(crate) fn finish(&self, t: usize, row: Placement) -> u64 {
        u64::from(row.start).saturating_add(u64::from(self.work(t)))
    }

    // When what task t waits for of task u is on a machine, where u is placed so.
    pub(crate) fn arrival(&self, u: usize, row: Placement, t: usize, machine: u8) -> u64 {
        match self.cost(u, t) {
            None => 0,
            Some(_) if row.machine == machine => self.finish(u, row),
            Some(cost) => self.finish(u, row).saturating_add(u64::from(cost)),
        }
    }

    // Whether task t starts when the data of task u is there, and the two do not run at once on one machine.
    fn bears(&self, t: usize, row: Placement, u: usize, before: Placement) -> bool {
        let is_fed = self.arrival(u, before, t, row.machine) <= u64::from(row.start);
        let is_apart = u == t
            || before.machine != row.machine
            || self.finish(u, before) <= u64::from(row.start)
            || self.finish(t, row) <= u64::from(before.start);
        is_fed && is_apart
    }

    // Whether the rows are a schedule that obeys the rules.
    pub(crate) fn is_obeyed(&self, rows: &[Placement]) -> bool {
        for t in 0..rows.len() {
            for u in 0..rows.len() {
                if rows[t].machine >= self.machines || !self.bears(t, rows[t], u, rows[u]) {
                    return false;
                }
            }
        }
        true
    }

    // The greatest finish.
    pub(crate) fn makespan(&self, rows: &[Placement]) -> u64 {
        let mut makespan = 0;
        for (t, row) in rows.iter().enumerate() {
            makespan = self.finish(t, *row).max(makespan);
        }
        makespan
    }
}
