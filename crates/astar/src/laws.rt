ghost use Rattle.astar.specs.Laws.{FloorHolds, BestIsFeasible, ExpansionKeeps, AdvanceKeeps, AdvanceEnds, OpeningStands, FloorIsLeast, AdvanceMeets, OpeningFills};
ghost use Rattle.astar.specs.Fates.{ChildFates, ExpansionVisits};
ghost use Rattle.astar.specs.Course.{AdvanceVisits};

// Each theorem on the states of a search is the promise of a function of its name.

// A search that is opened stands.
pub fn opening_stands()
    ensures { OpeningStands }
{}

// No feasible schedule is shorter than the floor.
pub fn floor_holds()
    ensures { FloorHolds }
{}

// The best schedule is feasible, and its length is its makespan.
pub fn best_is_feasible()
    ensures { BestIsFeasible }
{}

// Expanding a node keeps the invariant; the floor does not fall and the best length does not rise.
pub fn expansion_keeps()
    ensures { ExpansionKeeps }
{}

// A call of advance keeps what holds between two calls, and is never Strange.
pub fn advance_keeps()
    ensures { AdvanceKeeps }
{}

// A call of advance ends at the first state to which one of five tests applies, by the first that does.
pub fn advance_ends()
    ensures { AdvanceEnds }
{}

// What becomes of a child: it is complete, pruned, a duplicate or stored, and what each leaves.
pub fn child_fates()
    ensures { ChildFates }
{}

// Expanding a node takes it, and then its children come in the order of the choices, each to its fate, which is counted.
pub fn expansion_visits()
    ensures { ExpansionVisits }
{}

// A call of advance goes from expansion to expansion, each of the node whose entry comes first, child by child.
pub fn advance_visits()
    ensures { AdvanceVisits }
{}

// The floor is the best length or some entry's bound, and above none of these.
pub fn floor_is_least()
    ensures { FloorIsLeast }
{}

// A call of advance that answers Met leaves the best length as the floor.
pub fn advance_meets()
    ensures { AdvanceMeets }
{}

// What opening fills the table and the list with.
pub fn opening_fills()
    ensures { OpeningFills }
{}
