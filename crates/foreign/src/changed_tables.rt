use crate::changed::Change::{Graph, Table};
use crate::graphs::Draft::{Example, Longer, Unread, Wider};
use crate::line::Line;
use crate::line::Line::{Changed, Title};
use crate::scene::Origin;

// The search knows its memory by the numbers of tasks, machines, nodes and entries: with another number of nodes every
// call refuses, and advance is strange.
pub(crate) const RESIZED_TABLES: &[Line] = &[
    Title("tables of other sizes"),
    Changed("10 nodes", Table(Origin(Example, 10, 2))),
    Changed("11 nodes", Table(Origin(Example, 11, 2))),
    Changed("12 nodes", Table(Origin(Example, 12, 2))),
];

// With as many nodes of another search the floor is still that of the own list, 7. Best answers what node 0 holds, if it
// is a schedule of this graph with its length: 9, 8 where the other search has found the shortest, and 11 for the other
// graph, of whose list schedule the length is 12. Node 5, whose entry comes first, is unused, expanded, or has bound 10.
pub(crate) const CHANGED_TABLES: &[Line] = &[
    Title("tables of other searches"),
    Changed("just opened", Table(Origin(Example, 11, 0))),
    Changed("a step more", Table(Origin(Example, 11, 3))),
    Changed("met", Table(Origin(Example, 11, 100))),
    Changed("of the longer graph", Table(Origin(Longer, 11, 2))),
];

// For a graph with another number of machines or tasks every call refuses, and advance is strange. The longer graph has
// as many: node 0 is no schedule of its length there, and node 5 is expanded, whose children are pruned.
pub(crate) const CHANGED_GRAPHS: &[Line] = &[
    Title("other graphs"),
    Changed("three machines", Graph(Wider)),
    Changed("one task", Graph(Unread)),
    Changed("longer", Graph(Longer)),
];
