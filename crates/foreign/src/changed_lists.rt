use crate::changed::Change::{Entries, List};
use crate::graphs::Draft::{Example, Longer};
use crate::line::Line;
use crate::line::Line::{Changed, Title};
use crate::scene::Origin;
use queue::entry::Entry;

// Four entries wait: with another number every call refuses, and advance is strange. Otherwise the floor is the least
// bound, if it is below 9, and advance is strange where the entry that comes first is not a node's that waits with its
// bound: node 0, one that is expanded, one that is not used, one past the last, or node 5 at another bound. With bounds 9,
// as with those of the longer graph, 10 and 11, the search is taken for met and settled, since no bound is below the best
// length.
pub(crate) const CHANGED_LISTS: &[Line] = &[
    Title("changes of the list"),
    Changed("none", Entries(0, &[])),
    Changed("an entry more", Entries(0, &[Entry { bound: 9, node: 3 }])),
    Changed("an entry less", Entries(1, &[])),
    Changed("no entry", Entries(4, &[])),
    Changed("bound 6", Entries(1, &[Entry { bound: 6, node: 5 }])),
    Changed("node 0", Entries(1, &[Entry { bound: 6, node: 0 }])),
    Changed(
        "node 2",
        Entries(
            2,
            &[Entry { bound: 7, node: 2 }, Entry { bound: 9, node: 3 }],
        ),
    ),
    Changed("node 7", Entries(1, &[Entry { bound: 7, node: 7 }])),
    Changed("node 11", Entries(1, &[Entry { bound: 7, node: 11 }])),
    Changed(
        "bounds 9",
        Entries(
            4,
            &[
                Entry { bound: 9, node: 3 },
                Entry { bound: 9, node: 4 },
                Entry { bound: 9, node: 5 },
                Entry { bound: 9, node: 6 },
            ],
        ),
    ),
    Changed("just opened", List(Origin(Example, 11, 0))),
    Changed("a step more", List(Origin(Example, 11, 3))),
    Changed("of the longer graph", List(Origin(Longer, 11, 2))),
];

// Another list may hold the same entries. It may have more slots than the table has nodes, and not fewer.
pub(crate) const MOVED_LISTS: &[Line] = &[
    Title("other lists of the same entries"),
    Changed("12 slots", List(Origin(Example, 12, 2))),
    Changed("11 slots", List(Origin(Example, 11, 2))),
    Changed("10 slots", List(Origin(Example, 10, 2))),
];
