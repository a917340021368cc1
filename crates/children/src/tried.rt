ghost use Rattle.std.specs.Prelude.{◌≡◌, not};
ghost use Rattle.model.specs.Range.{lowest};
ghost use Rattle.model.specs.Children.{is_used, passing, tried};
ghost use Rattle.loader.specs.Meaning.{the_graph};
ghost use Rattle.partial.specs.Meaning.{the_partial};

use crate::short_list::ShortList;
use loader::graph::TaskGraph;
use partial::partial::PartialSchedule;

// Whether a task is placed on machine m.
fn is_used(g: &TaskGraph, q: &PartialSchedule, m: u8) -> bool
    ensures { result ≡ is_used (the_graph g.now) (the_partial q.now) m }
{
    (0..g.tasks()).any(|u| q.lies_on(m, u))
}

// The used machines, ascending.
fn used_machines(g: &TaskGraph, q: &PartialSchedule) -> ShortList<u8, 8>
    ensures { result
        ≡ passing (the_graph g.now).machines (is_used (the_graph g.now) (the_partial q.now)) }
{
    let mut machines = ShortList::new(0);
    for m in 0..g.machines() as u8 {
        if is_used(g, q, m) {
            machines.push(m);
        }
    }
    machines
}

// The lowest empty machine, if there is one.
fn lowest_empty(g: &TaskGraph, q: &PartialSchedule) -> Option<u8>
    ensures { result ≡ lowest (the_graph g.now).machines
        (λ m. not (is_used (the_graph g.now) (the_partial q.now) m)) }
{
    (0..g.machines() as u8).find(|m| !is_used(g, q, *m))
}

// The machines that a task is tried on: the used ones ascending, then the lowest empty one.
pub(crate) fn tried(g: &TaskGraph, q: &PartialSchedule) -> ShortList<u8, 8>
    ensures { result ≡ tried (the_graph g.now) (the_partial q.now) }
{
    let mut machines = used_machines(g, q);
    if let Some(m) = lowest_empty(g, q) {
        machines.push(m);
    }
    machines
}
