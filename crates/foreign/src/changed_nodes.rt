use crate::changed::Change::Node;
use crate::line::Line;
use crate::line::Line::{Changed, Title};
use nodes::node::Status::{Expanded, Waiting};

// Node 5, whose entry comes first with bound 7, holds tasks 0 and 2 on machine 0, from 0 and from 2. Where it waits with
// this bound and is in order, it is expanded, and by the path bound its children are pruned or stored; else the call is
// strange. Floor, best and settle do not look at it: the floor is 7, the best length 9, so that settle is refused.
pub(crate) const CHANGED_FIRST: &[Line] = &[
    Title("changes of node 5"),
    Changed("none", Node(5, Waiting, 7, &[(0, 0, 0), (2, 0, 2)])),
    Changed("bound 6", Node(5, Waiting, 6, &[(0, 0, 0), (2, 0, 2)])),
    Changed("bound 8", Node(5, Waiting, 8, &[(0, 0, 0), (2, 0, 2)])),
    Changed("expanded", Node(5, Expanded, 7, &[(0, 0, 0), (2, 0, 2)])),
    Changed("without task 0", Node(5, Waiting, 7, &[(2, 0, 2)])),
    Changed(
        "machine 2",
        Node(5, Waiting, 7, &[(0, 0, 0), (1, 1, 3), (2, 2, 3)]),
    ),
    Changed(
        "machine 255",
        Node(5, Waiting, 7, &[(0, 255, 0), (2, 255, 2)]),
    ),
    Changed("on machine 1", Node(5, Waiting, 7, &[(0, 1, 0), (2, 1, 2)])),
    Changed(
        "start 64000",
        Node(5, Waiting, 7, &[(0, 0, 0), (2, 0, 64000)]),
    ),
    Changed(
        "start 64001",
        Node(5, Waiting, 7, &[(0, 0, 0), (2, 0, 64001)]),
    ),
    Changed(
        "with task 4",
        Node(5, Waiting, 7, &[(0, 0, 0), (2, 0, 2), (4, 0, 5)]),
    ),
    Changed(
        "with task 31",
        Node(5, Waiting, 7, &[(0, 0, 0), (2, 0, 2), (31, 0, 5)]),
    ),
    Changed(
        "complete",
        Node(5, Waiting, 7, &[(0, 0, 0), (1, 1, 3), (2, 0, 2), (3, 1, 6)]),
    ),
];

// Node 0 holds the list schedule, of length 9. Best refuses what is no schedule of its length. Advance and settle look at
// its length alone, so that with 7, the floor, the search is taken for met and settled: that it is shortest is promised
// of memory that nobody else wrote.
pub(crate) const CHANGED_BEST: &[Line] = &[
    Title("changes of node 0"),
    Changed(
        "none",
        Node(
            0,
            Expanded,
            9,
            &[(0, 0, 0), (1, 0, 2), (2, 1, 3), (3, 0, 7)],
        ),
    ),
    Changed(
        "length 8",
        Node(
            0,
            Expanded,
            8,
            &[(0, 0, 0), (1, 0, 2), (2, 1, 3), (3, 0, 7)],
        ),
    ),
    Changed(
        "length 7",
        Node(
            0,
            Expanded,
            7,
            &[(0, 0, 0), (1, 0, 2), (2, 1, 3), (3, 0, 7)],
        ),
    ),
    Changed(
        "without task 3",
        Node(0, Expanded, 9, &[(0, 0, 0), (1, 0, 2), (2, 1, 3)]),
    ),
    Changed(
        "task 2 too early",
        Node(
            0,
            Expanded,
            9,
            &[(0, 0, 0), (1, 0, 2), (2, 1, 2), (3, 0, 7)],
        ),
    ),
    Changed(
        "tasks 1 and 2 at once",
        Node(
            0,
            Expanded,
            9,
            &[(0, 0, 0), (1, 0, 2), (2, 0, 2), (3, 0, 7)],
        ),
    ),
    Changed(
        "machine 2",
        Node(
            0,
            Expanded,
            9,
            &[(0, 0, 0), (1, 0, 2), (2, 2, 3), (3, 0, 7)],
        ),
    ),
];
