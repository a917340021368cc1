ghost use Rattle.std.specs.Prelude.{◌≡◌, ◌≤◌};
ghost use Rattle.model.specs.Schedule.{Schedule, Feasible, makespan};
ghost use Rattle.model.specs.Partial.{nothing};
ghost use Rattle.model.specs.Bounds.{Bound, IsLowerBound};
ghost use Rattle.loader.specs.Meaning.{the_graph};
ghost use Rattle.partial.specs.Meaning.{the_partial};

use loader::graph::TaskGraph;
use partial::partial::PartialSchedule;

// A rule that gives every graph and partial schedule a number. Of a partial schedule that is reachable and places no task
// which the graph lacks, no completion is shorter than the number.
pub trait LowerBound {
    ghost number: { Self → Bound };

    // The number of a partial schedule of a graph, whatever it holds.
    fn bound(&self, g: &TaskGraph, q: &PartialSchedule) -> u64
        ensures { result ≡ number self.now (the_graph g.now) (the_partial q.now) };

    ghost lower: { (rule : Self) → IsLowerBound (number rule) };
}

// What a rule says of the graph, before any task is placed: no feasible schedule is shorter.
pub fn root_bound<B: LowerBound>(rule: &B, g: &TaskGraph) -> u64
    ensures is { result ≡ B.number rule.now (the_graph g.now) nothing }
    ensures lower { (p : Schedule) → Feasible (the_graph g.now) p
        → result ≤ makespan (the_graph g.now) p }
{
    rule.bound(g, &PartialSchedule::empty())
}
