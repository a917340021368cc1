ghost use Rattle.std.specs.Prelude.{◌≡◌, ◌<◌, ◌&&◌, IfSome, IsSome, nat_lt};
ghost use Rattle.model.specs.Partial.{Free, append, is_free, Obeys};
ghost use Rattle.model.specs.NormalForm.{normal_form};
ghost use Rattle.model.specs.Reachable.{Reachable};
ghost use Rattle.loader.specs.Meaning.{the_graph};
ghost use Rattle.partial.specs.Meaning.{the_partial, Answers};

use crate::partial::PartialSchedule;
use crate::placement::Placement;
use loader::graph::TaskGraph;

impl PartialSchedule {
    // Whether task t is free and machine m is one of the graph's.
    fn is_open(&self, g: &TaskGraph, t: usize, m: u8) -> bool
        ensures { result ≡ (is_free (the_graph g.now) (the_partial self.now) t
            && nat_lt m (the_graph g.now).machines) }
    {
        self.is_free(g, t) && usize::from(m) < g.machines()
    }

    // Task t put on machine m at the greater of its data ready time there and the machine's finish. None where
    // the task is not free, the machine is not one of the graph's, or 32 bits do not hold the start.
    pub fn append(&self, g: &TaskGraph, t: usize, m: u8) -> Option<PartialSchedule>
        ensures is { Answers (the_graph g.now) (the_partial self.now) t m
            (append (the_graph g.now) (the_partial self.now) t m) result }
        ensures some { Reachable (the_graph g.now) (the_partial self.now)
            → Free (the_graph g.now) (the_partial self.now) t → m < (the_graph g.now).machines
            → IsSome result }
        ensures keeps_rules { Obeys (the_graph g.now) (the_partial self.now)
            → IfSome result (λ c. Obeys (the_graph g.now) (the_partial c)) }
    {
        if !self.is_open(g, t, m) {
            return None;
        }
        let start = u32::try_from(self.start_on(g, t, m)).ok()?;
        let mut appended = *self;
        appended.places[t] = Some(Placement { machine: m, start });
        Some(appended)
    }

    // The same, in normal form.
    pub fn child(&self, g: &TaskGraph, t: usize, m: u8) -> Option<PartialSchedule>
        ensures is { Answers (the_graph g.now) (the_partial self.now) t m
            (normal_form (the_graph g.now)
            (append (the_graph g.now) (the_partial self.now) t m)) result }
        ensures some { Reachable (the_graph g.now) (the_partial self.now)
            → Free (the_graph g.now) (the_partial self.now) t → m < (the_graph g.now).machines
            → IsSome result }
        ensures reachable { Reachable (the_graph g.now) (the_partial self.now)
            → IfSome result (λ c. Reachable (the_graph g.now) (the_partial c)) }
    {
        let appended = self.append(g, t, m)?;
        Some(appended.normal_form(g))
    }
}
