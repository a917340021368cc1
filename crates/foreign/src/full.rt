use crate::blank::SLOTS;
use crate::graphs::Draft;
use crate::line::Line;
use crate::line::Line::Full;
use crate::scene::{Origin, Scene};
use std::alloc::Global;

// The steps of the example's search, by the path bound:
// 1. node 1, no task placed: child 2 places task 0, bound 7.
// 2. node 2: children 3 and 4 place task 1 on machine 0 and 1, 5 and 6 task 2, with bounds 7, 8, 7, 8.
// 3. node 5, the greater of those with bound 7: task 1 on machine 0 is pruned, bound 10; child 7 has it on machine 1.
// 4. node 3: task 2 on machine 0 is pruned; child 8 has it on machine 1. Nodes 4, 6, 7 and 8 wait with bound 8.
// 5. node 8: task 3 finishes at 9 on both machines, no sooner than in the list schedule.
// 6. node 7: task 3 finishes at 10 on machine 0, at 8 on machine 1, which is the best schedule from then on. It is met.
// A step is made where its children have room behind the used nodes: the first with 3 nodes, the second with 7, then with
// 9, 10, 11 and 11. A call that ends with Full changes nothing more.
pub(crate) const FULL_TABLES: &[Line] = &[
    Full(2),
    Full(3),
    Full(4),
    Full(5),
    Full(6),
    Full(7),
    Full(8),
    Full(9),
    Full(10),
    Full(11),
    Full(12),
];

// A search in a table of so many nodes, advanced twice by more steps than it can make, and then by none.
pub(crate) fn fill(heap: Global, nodes: usize) -> anyhow::Result<String> {
    let mut slots = SLOTS;
    let origin = Origin(Draft::Example, nodes, 0);
    let mut scene = Scene::new(heap, &origin, &mut slots)?;
    let first = scene.advance(100);
    let second = scene.advance(100);
    let third = scene.advance(0);
    let then = scene.answers("then");
    Ok(format!(in heap; "a table of {nodes} nodes\n{first}\n{second}\n{third}\n{then}")?)
}
