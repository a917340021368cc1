ghost use Rattle.std.specs.Prelude.{◌≡◌, ◌↔◌, IsTrue};
ghost use Rattle.model.specs.Range.{every};
ghost use Rattle.model.specs.NormalForm.{normal_form};
ghost use Rattle.model.specs.Nodes.{is_duplicate};
ghost use Rattle.model.specs.Soundness.{Orderly, in_range, comes_after, is_orderly};
ghost use Rattle.loader.specs.Meaning.{the_graph};
ghost use Rattle.partial.specs.Meaning.{the_partial};
ghost use Rattle.children.specs.Transfers.{transfer_comes_after};

use loader::graph::TaskGraph;
use loader::transfer::Transfer;
use partial::partial::PartialSchedule;

// Whether task t, if it is placed, is one of the graph, on a machine of the graph, at a start up to 64,000.
fn in_range(g: &TaskGraph, q: &PartialSchedule, t: usize) -> bool
    ensures { result ≡ in_range (the_graph g.now) (the_partial q.now) t }
{
    q.placement(t).is_none_or(|p| {
        t < g.tasks() && usize::from(p.machine) < g.machines() && p.start <= 64_000
    })
}

// Whether this holds of every place.
fn all_in_range(g: &TaskGraph, q: &PartialSchedule) -> bool
    ensures { result ≡ every 32 (in_range (the_graph g.now) (the_partial q.now)) }
{
    (0..32).all(|t| in_range(g, q, t))
}

// Whether transfer e leads from a placed task if it leads to one.
fn comes_after(q: &PartialSchedule, e: &Transfer) -> bool
    ensures { result ≡ transfer_comes_after (the_partial q.now) e.now }
{
    !q.is_placed(usize::from(e.to)) || q.is_placed(usize::from(e.from))
}

// Whether this holds of every transfer.
fn all_come_after(g: &TaskGraph, q: &PartialSchedule) -> bool
    ensures { result ≡ every (the_graph g.now).count
        (comes_after (the_graph g.now) (the_partial q.now)) }
{
    g.transfers().iter().all(|e| comes_after(q, e))
}

// Whether the machines have the names of the normal form.
fn is_normal(g: &TaskGraph, q: &PartialSchedule) -> bool
    ensures { result ≡ is_duplicate (the_partial q.now)
        (normal_form (the_graph g.now) (the_partial q.now)) }
{
    q.is_duplicate(&q.normal_form(g))
}

// Whether a partial schedule can be taken from a node handed in: tasks, machines and starts in range,
// predecessors placed, machines in normal form.
pub fn is_orderly(g: &TaskGraph, q: &PartialSchedule) -> bool
    ensures is { result ≡ is_orderly (the_graph g.now) (the_partial q.now) }
    ensures law { IsTrue result ↔ Orderly (the_graph g.now) (the_partial q.now) }
{
    all_in_range(g, q) && all_come_after(g, q) && is_normal(g, q)
}
