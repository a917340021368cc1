use crate::example::example_on;
use crate::places::{Places, placed};
use crate::same::same;
use loader::graph::TaskGraph;
use loader::load::load;
use schedule::list::list_schedule;

// Where tasks are placed, a task and a machine to append it on, and where tasks are placed then.
const APPENDS: &[(Places, usize, u8, Option<Places>)] = &[
    // Its predecessor is not placed.
    (&[], 1, 0, None),
    // There is no such task, no such machine.
    (&[], 4, 0, None),
    (&[], 0, 2, None),
    (&[], 0, 1, Some(&[Some((1, 0))])),
    // It is placed already; another is free.
    (&[Some((1, 0))], 0, 0, None),
    (
        &[Some((1, 0))],
        2,
        0,
        Some(&[Some((1, 0)), None, Some((0, 3))]),
    ),
    // 32 bits hold the start on machine 0, and not on machine 1.
    (
        &[Some((0, 4294967293))],
        1,
        0,
        Some(&[Some((0, 4294967293)), Some((0, 4294967295))]),
    ),
    (&[Some((0, 4294967293))], 1, 1, None),
];

#[test]
fn only_free_tasks_are_appended(rt: HostRuntime) {
    let graph = example_on(2);
    for (places, task, machine, wanted) in APPENDS {
        let appended = placed(places).append(&graph, *task, *machine);
        same(&rt, &appended, &wanted.map(placed));
    }
}

const TWO: Places = &[Some((1, 0)), None, Some((0, 3))];

#[test]
fn measures(rt: HostRuntime) {
    let graph = example_on(2);
    let two = placed(TWO);
    let told = [
        two.machine_finish(&graph, 0),
        two.data_ready(&graph, 1, 1),
        two.data_ready(&graph, 1, 0),
        two.start_on(&graph, 1, 0),
    ];
    same(&rt, &told, &[6, 2, 3, 6]);
}

const SWAPPED: Places = &[Some((1, 0)), Some((0, 3)), Some((1, 2))];

const RENAMED: Places = &[Some((0, 0)), Some((1, 3)), Some((0, 2))];

// Three tasks on three machines; the second leads to the third.
const THREE_TASKS: &[u8] = b"\x04\x00\x01\x00\x03\x00\x03\x00\
    \x02\x00\x02\x00\x01\x00\
    \x02\x00\x02\x00\x04\x00\
    \x02\x00\x02\x00\x01\x00\
    \x06\x00\x03\x00\x01\x00\x02\x00\x00\x00\
    \x00\x00\x04\x00";

// The machine among equals is the lowest by the names of that moment: task 2 ties between machines 0 and 1.
const LISTED: Places = &[Some((0, 0)), Some((1, 0)), Some((0, 4))];

#[test]
fn machines_are_named_anew_each_time(rt: HostRuntime) {
    let mut graph = TaskGraph::new();
    assert!(rt; load(&mut graph, THREE_TASKS).is_ok());
    let told = [
        placed(SWAPPED).normal_form(&example_on(2)),
        list_schedule(&graph),
    ];
    same(&rt, &told, &[placed(RENAMED), placed(LISTED)]);
}
