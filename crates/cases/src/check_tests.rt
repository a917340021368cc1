use crate::example::example_on;
use crate::places::{Places, place, placed};
use crate::same::same;
use loader::graph::TaskGraph;
use refusal::refusal::Refusal;
use schedule::check::check as check_rows;
use schedule::checked::{CheckedSchedule, checked_list_schedule, rows};

// The makespan where the rows pass, else the number and the place of the refusal. There are at most five rows.
fn judged(graph: &TaskGraph, tasks: &[(u8, u32)]) -> Result<u64, (u8, usize)> {
    let mut rows = [place((0, 0)); 5];
    for (row, task) in rows.iter_mut().zip(tasks) {
        *row = place(*task);
    }
    match check_rows(graph, &rows[..tasks.len().min(5)]) {
        Ok(makespan) => Ok(makespan),
        Err(e) => {
            let refusal = Refusal::from(e);
            Err((refusal.number, refusal.place))
        }
    }
}

// The machine and the start of each row; then the makespan, or the number and the place.
const CASES: &[(&[(u8, u32)], Result<u64, (u8, usize)>)] = &[
    (&[(0, 0), (1, 3), (0, 2), (1, 6)], Ok(8)),
    (&[(0, 0), (1, 3), (0, 2), (1, 64000)], Ok(64002)),
    (&[(0, 0), (1, 3), (0, 2), (1, 64001)], Err((13, 3))),
    (&[(0, 0), (1, 3), (0, 2), (2, 6)], Err((13, 3))),
    (&[(0, 0), (255, 3), (0, 4294967295), (1, 6)], Err((13, 1))),
    (&[(0, 0), (1, 3), (0, 2), (1, 5)], Err((14, 3))),
    (&[(0, 0), (1, 2), (0, 1), (1, 6)], Err((14, 1))),
    (&[(0, 0), (0, 2), (0, 3), (1, 6)], Err((14, 3))),
    (
        &[(0, 64000), (0, 64000), (0, 64000), (0, 64000)],
        Err((14, 1)),
    ),
    (&[(0, 0), (0, 2), (0, 3), (0, 9)], Err((15, 1))),
    // One row for each task.
    (&[], Err((13, 4))),
    (&[(0, 0), (0, 0), (0, 0)], Err((13, 4))),
    (&[(0, 0), (0, 0), (0, 0), (0, 0), (0, 0)], Err((13, 4))),
];

#[test]
fn rules_in_order(rt: HostRuntime) {
    let graph = example_on(2);
    for (tasks, wanted) in CASES {
        same(&rt, &judged(&graph, tasks), wanted);
    }
}

const LISTED: Places = &[Some((0, 0)), Some((0, 2)), Some((1, 3)), Some((0, 7))];

#[test]
fn list_schedule_of_the_example(rt: HostRuntime) {
    let wanted = CheckedSchedule {
        rows: rows(&placed(LISTED)),
        makespan: 9,
    };
    same(&rt, &checked_list_schedule(&example_on(2)), &Ok(wanted));
}
