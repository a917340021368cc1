use crate::shortest::Shortest;
use crate::sketch::{BLANK, Sketch, TINY};
use partial::placement::Placement;

// Every machine and every start up to `latest` for the first `left` tasks, beside the rows of the others.
fn try_all(
    sketch: &Sketch,
    latest: u32,
    rows: &mut [Placement],
    left: usize,
    shortest: &mut Shortest,
) {
    if left == 0 {
        if sketch.is_obeyed(rows) {
            shortest.see(sketch.makespan(rows));
        }
        return;
    }
    for machine in 0..sketch.machines {
        for start in 0..=latest {
            if let Some(row) = rows.get_mut(left - 1) {
                *row = Placement { machine, start };
            }
            try_all(sketch, latest, rows, left - 1, shortest);
        }
    }
}

// The shortest of all schedules of a tiny sketch that obey the rules and start no task later than the sum of all works and
// costs.
pub(crate) fn shortest_of_all(sketch: &Sketch) -> Shortest {
    let mut shortest = Shortest::NONE;
    let mut rows = [BLANK; TINY];
    let tasks = sketch.tasks.min(TINY);
    try_all(
        sketch,
        sketch.sum(),
        &mut rows[..tasks],
        tasks,
        &mut shortest,
    );
    shortest
}
