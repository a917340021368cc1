use crate::shortest::Shortest;
use crate::sketch::{MOST, Sketch};
use partial::placement::Placement;

// Sketches have at most so many machines.
const MACHINES: usize = 3;

// A schedule that is being made: a row for each task that is placed, and the greatest finish of these.
#[derive(Clone, Copy)]
struct Draft {
    rows: [Option<Placement>; MOST],
    length: u64,
}

// When task u lets task t start on a machine: at its finish there, when its data is there from another. None where t waits
// for data of u, which is not placed.
fn release(sketch: &Sketch, u: usize, row: Option<Placement>, t: usize, m: u8) -> Option<u64> {
    match row {
        Some(row) if row.machine == m => Some(sketch.finish(u, row)),
        Some(row) => Some(sketch.arrival(u, row, t, m)),
        None if sketch.cost(u, t).is_some() => None,
        None => Some(0),
    }
}

impl Draft {
    // When task t can start on machine m behind all that is placed.
    fn start_on(&self, sketch: &Sketch, t: usize, m: u8) -> Option<u64> {
        let mut start = 0;
        for (u, row) in self.rows.iter().enumerate() {
            start = release(sketch, u, *row, t, m)?.max(start);
        }
        Some(start)
    }

    // Task t put on machine m, as early as it can start behind all that is placed; None where it is placed or waits for
    // data, and where the sketch lacks it.
    fn append(&self, sketch: &Sketch, t: usize, m: u8) -> Option<Draft> {
        if t >= sketch.tasks || m >= sketch.machines || self.rows.get(t)?.is_some() {
            return None;
        }
        let start = u32::try_from(self.start_on(sketch, t, m)?).ok()?;
        let row = Placement { machine: m, start };
        let mut appended = *self;
        *appended.rows.get_mut(t)? = Some(row);
        appended.length = sketch.finish(t, row).max(self.length);
        Some(appended)
    }
}

// Every way to append the `left` tasks that are not placed: every order and every machine.
fn try_all(sketch: &Sketch, draft: &Draft, left: usize, shortest: &mut Shortest) {
    if left == 0 {
        shortest.see(draft.length);
        return;
    }
    for choice in 0..MOST * MACHINES {
        let (t, m) = (choice / MACHINES, choice % MACHINES);
        if let Some(appended) = draft.append(sketch, t, m as u8) {
            try_all(sketch, &appended, left - 1, shortest);
        }
    }
}

// The shortest of all left-shifted schedules.
pub(crate) fn shortest_left_shifted(sketch: &Sketch) -> Shortest {
    let mut shortest = Shortest::NONE;
    let nothing = Draft {
        rows: [None; MOST],
        length: 0,
    };
    try_all(sketch, &nothing, sketch.tasks, &mut shortest);
    shortest
}
