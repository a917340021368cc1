use crate::example::{EXAMPLE, example_on};
use crate::parts::{Part, run_file};
use crate::same::same;
use Part::{End, Fan, Head, Tasks, Times, Transfer};
use loader::graph::TaskGraph;
use loader::load::load;
use refusal::refusal::Refusal;
use std::alloc::{AllocError, Global};

// How a file is told: the number of tasks where it is read, else the number and the place of the refusal.
type Told = Result<usize, (u8, usize)>;

fn told(bytes: &[u8]) -> Told {
    let mut graph = TaskGraph::new();
    match load(&mut graph, bytes) {
        Ok(()) => Ok(graph.tasks()),
        Err(e) => {
            let refusal = Refusal::from(e);
            Err((refusal.number, refusal.place))
        }
    }
}

// The parts of a file, and how it is told.
const CASES: &[(&[Part], Told)] = &[
    // Numbers in range.
    (&[Head(31, 8), Tasks(31, 1), End], Ok(31)),
    (&[Head(32, 1), Tasks(32, 1000), End], Ok(32)),
    (&[Head(33, 1), Tasks(33, 1), End], Err((4, 0))),
    (&[Head(0, 1), End], Err((4, 0))),
    (&[Head(1, 9), Tasks(1, 1), End], Err((4, 0))),
    (&[Head(1, 0), Tasks(1, 1), End], Err((4, 0))),
    (&[Head(2, 1), Tasks(2, 1001), End], Err((4, 8))),
    (&[Head(2, 1), Tasks(2, 0), End], Err((4, 8))),
    (&[Head(2, 1), Tasks(2, 1), Transfer(1, 0, 1000), End], Ok(2)),
    (
        &[Head(2, 1), Tasks(2, 1), Transfer(0, 1, 1001), End],
        Err((4, 20)),
    ),
    (
        &[Head(2, 1), Tasks(2, 1), Transfer(0, 2, 0), End],
        Err((4, 20)),
    ),
    (
        &[Head(2, 1), Tasks(2, 1), Transfer(2, 0, 0), End],
        Err((4, 20)),
    ),
    (
        &[Head(2, 1), Tasks(2, 1), Transfer(1, 1, 0), End],
        Err((4, 20)),
    ),
    // Tasks 0 and 1 only lead into and out of the cycle.
    (
        &[
            Head(5, 1),
            Tasks(5, 1),
            Transfer(0, 2, 0),
            Transfer(2, 4, 0),
            Transfer(4, 3, 0),
            Transfer(3, 2, 0),
            Transfer(3, 1, 0),
            End,
        ],
        Err((8, 20)),
    ),
    // At the 129th transfer the range is tested before the number of transfers, and that before the pair.
    (
        &[
            Head(32, 1),
            Tasks(32, 1),
            Fan(0, 1, 32),
            Fan(1, 2, 32),
            Fan(2, 3, 32),
            Fan(3, 4, 32),
            Fan(4, 5, 14),
            Transfer(30, 31, 0),
            End,
        ],
        Ok(32),
    ),
    (
        &[
            Head(32, 1),
            Tasks(32, 1),
            Fan(0, 1, 32),
            Fan(1, 2, 32),
            Fan(2, 3, 32),
            Fan(3, 4, 32),
            Fan(4, 5, 15),
            Transfer(30, 31, 0),
            End,
        ],
        Err((5, 1480)),
    ),
    (
        &[
            Head(32, 1),
            Tasks(32, 1),
            Fan(0, 1, 32),
            Fan(1, 2, 32),
            Fan(2, 3, 32),
            Fan(3, 4, 32),
            Fan(4, 5, 15),
            Transfer(30, 32, 0),
            End,
        ],
        Err((4, 1480)),
    ),
    (
        &[
            Head(32, 1),
            Tasks(32, 1),
            Fan(0, 1, 32),
            Fan(1, 2, 32),
            Fan(2, 3, 32),
            Fan(3, 4, 32),
            Fan(4, 5, 15),
            Transfer(0, 1, 0),
            End,
        ],
        Err((5, 1480)),
    ),
    (
        &[
            Head(32, 1),
            Tasks(32, 1),
            Fan(0, 1, 32),
            Fan(1, 2, 32),
            Fan(2, 3, 32),
            Fan(3, 4, 32),
            Fan(4, 5, 14),
            Transfer(0, 1, 7),
            End,
        ],
        Err((6, 1470)),
    ),
    // Records that are not the one due, and what follows the last one.
    (&[Head(2, 1), Tasks(1, 1), Transfer(0, 1, 0)], Err((2, 14))),
    (&[Head(1, 1), Tasks(2, 1)], Err((2, 14))),
    (
        &[Head(1, 1), Times(1, &[4, 0, 2, 0, 1, 0, 1, 0])],
        Err((3, 8)),
    ),
    (
        &[Head(1, 1), Tasks(1, 1), Times(1, &[2, 0, 4, 0, 1, 0])],
        Err((3, 14)),
    ),
    (
        &[Head(1, 1), Tasks(1, 1), End, Times(1, &[0])],
        Err((7, 18)),
    ),
    // A payload past the end is found before the kind.
    (&[Head(1, 1), Times(1, &[255, 255, 9, 0])], Err((1, 8))),
    // A whole record of an unknown kind.
    (
        &[Head(1, 1), Times(1, &[255, 255, 9, 0]), Times(65535, &[0])],
        Err((2, 8)),
    ),
];

fn parts_told(heap: Global, parts: &[Part]) -> Result<Told, AllocError> {
    Ok(told(&run_file(heap, parts)?))
}

#[test]
fn files_told(rt: HostRuntime) {
    for (parts, wanted) in CASES {
        same(&rt, &parts_told(rt.alloc(), parts), &Ok(*wanted));
    }
}

// Where the example's records begin.
const STARTS: [usize; 10] = [0, 8, 14, 20, 26, 32, 42, 52, 62, 72];

#[test]
fn truncated_example(rt: HostRuntime) {
    let mut start = 0;
    for size in 0..EXAMPLE.len() {
        if STARTS.contains(&size) {
            start = size;
        }
        same(&rt, &told(&EXAMPLE[..size]), &Err((1, start)));
    }
    same(&rt, &told(EXAMPLE), &Ok(4));
}

// Three tasks are to come, and the file ends after two.
const SHORT: &[u8; 20] = b"\x04\x00\x01\x00\x03\x00\x01\x00\
    \x02\x00\x02\x00\x01\x00\
    \x02\x00\x02\x00\x01\x00";

#[test]
fn refused_files_leave_the_graph(rt: HostRuntime) {
    let mut graph = example_on(2);
    assert!(rt; load(&mut graph, SHORT).is_err());
    let kept = (
        graph.tasks(),
        graph.machines(),
        graph.works(),
        graph.bottom_levels(),
        graph.transfers().len(),
    );
    let wanted = (4, 2, [2, 3, 3, 2].as_slice(), [7, 5, 5, 2].as_slice(), 4);
    same(&rt, &kept, &wanted);
}

fn refusal_text(heap: Global, bytes: &[u8]) -> Option<String> {
    let fault = load(&mut TaskGraph::new(), bytes).err()?;
    Refusal::from(fault).to_string(heap).ok()
}

#[test]
fn refusals_as_text(rt: HostRuntime) {
    let text = refusal_text(rt.alloc(), &[]).expect(&rt, "an empty file is refused");
    same(&rt, &text.as_str(), &"refused 1 at 0 in bytes");
}
