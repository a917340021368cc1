use astar::outcome::Outcome;

// What a search may differ in from what is expected of it.
#[derive(Clone, Copy, Debug)]
pub(crate) enum Difference {
    // The graph's run file, or a call, is refused.
    Refused,
    // A call of advance ends so.
    Ended(Outcome),
    // The search goes on and on.
    Endless,
    // The floor fell, or the best length rose.
    Back,
    // Floor or best length is on the wrong side of the shortest length.
    Beyond,
    // The search settles on another length than the shortest.
    Length,
    // The best rows break a rule, or have another makespan.
    Rows,
    // A schedule with other starts is shorter than each left-shifted one.
    Shorter,
}
