use crate::example::example_on;
use crate::places::{Places, placed};
use crate::same::same;
use bounds::arrival_bound::ArrivalBound;
use bounds::larger_of::LargerOf;
use bounds::load_bound::LoadBound;
use bounds::lower_bound::{LowerBound, root_bound};
use bounds::path_bound::PathBound;
use loader::graph::TaskGraph;
use partial::partial::PartialSchedule;

// A rule that knows nothing. It is a lower bound too.
#[derive(Clone, Copy)]
struct ZeroBound;

impl LowerBound for ZeroBound {
    ghost use Rattle.std.proofs.Common.{rules};

    ghost number = { λ _ _ _. 0 };

    ghost lower = { Prim.search rules };

    fn bound(&self, _g: &TaskGraph, _q: &PartialSchedule) -> u64 {
        0
    }
}

const LATEST: u32 = 4294967295;

// How many machines, where the example's tasks are placed, and the path, load and arrival bounds.
const CASES: &[(u8, Places, [u64; 3])] = &[
    (2, &[], [7, 5, 7]),
    (8, &[], [7, 2, 7]),
    (2, &[Some((0, 0))], [7, 5, 7]),
    (2, &[Some((0, 1))], [8, 6, 8]),
    (2, &[Some((0, 60000))], [60007, 30005, 60007]),
    (1, &[Some((0, 60000))], [60007, 60010, 60007]),
    (8, &[Some((7, 60001))], [60008, 7502, 60008]),
    (
        2,
        &[Some((0, 0)), Some((1, 60000)), Some((0, 2))],
        [60005, 30005, 60005],
    ),
    (
        1,
        &[Some((0, 60000)), Some((0, 60003))],
        [60008, 60011, 60007],
    ),
    (
        2,
        &[Some((0, 0)), Some((1, 3)), Some((0, 2)), Some((1, 6))],
        [8, 7, 0],
    ),
    (
        2,
        &[Some((0, 0)), Some((0, 0)), Some((0, 0)), Some((0, 0))],
        [7, 5, 0],
    ),
    (
        2,
        &[Some((0, LATEST))],
        [4294967302, 2147483653, 4294967302],
    ),
];

#[test]
fn each_rule_alone(rt: HostRuntime) {
    for (machines, places, wanted) in CASES {
        let graph = example_on(*machines);
        let tasks = placed(places);
        let told = [
            PathBound.bound(&graph, &tasks),
            LoadBound.bound(&graph, &tasks),
            ArrivalBound.bound(&graph, &tasks),
        ];
        same(&rt, &told, wanted);
    }
}

const LATE: Places = &[Some((0, 60000))];

#[test]
fn rules_joined(rt: HostRuntime) {
    let graph = example_on(2);
    let late = placed(LATE);
    let both = LargerOf {
        first: PathBound,
        second: LoadBound,
    };
    let larger = LargerOf {
        first: ZeroBound,
        second: ArrivalBound,
    };
    let told = [
        root_bound(&both, &graph),
        root_bound(&both, &example_on(1)),
        root_bound(&ZeroBound, &graph),
        ZeroBound.bound(&graph, &late),
        larger.bound(&graph, &late),
    ];
    same(&rt, &told, &[7, 10, 0, 0, 60007]);
}
