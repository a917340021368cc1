ghost use Rattle.std.specs.Prelude.{◌≡◌};
ghost use Rattle.model.specs.Partial.{Partial};
ghost use Rattle.model.specs.NormalForm.{naming, normal_form, OnMachines, Renamed, Renames, Normal, Same};
ghost use Rattle.loader.specs.Meaning.{the_graph};
ghost use Rattle.partial.specs.Meaning.{the_partial};
ghost use Rattle.partial.specs.Names.{the_names};

use crate::names::Names;
use crate::partial::PartialSchedule;
use loader::graph::TaskGraph;

impl PartialSchedule {
    // The names that the tasks give to the machines.
    fn names(&self, g: &TaskGraph) -> Names
        ensures { the_names result ≡ naming (the_partial self.now) (the_graph g.now).tasks }
    {
        let mut names = Names::none();
        for t in 0..g.tasks() {
            if let Some(place) = self.placement(t) {
                names.note(place.machine);
            }
        }
        names
    }

    // Machines renamed: machine 0 holds the lowest placed task, machine 1 the lowest elsewhere, and so on.
    pub fn normal_form(&self, g: &TaskGraph) -> PartialSchedule
        ensures is { the_partial result ≡ normal_form (the_graph g.now) (the_partial self.now) }
        ensures normal { OnMachines (the_graph g.now) (the_partial self.now)
            → Normal (the_graph g.now) (the_partial result) }
        ensures renames { OnMachines (the_graph g.now) (the_partial self.now)
            → Renames (the_graph g.now) (the_partial self.now) (the_partial result) }
        ensures one_form { (c : Partial) → OnMachines (the_graph g.now) (the_partial self.now)
            → Renamed (the_graph g.now) (the_partial self.now) c
            → Same (the_graph g.now) (normal_form (the_graph g.now) c) (the_partial result) }
    {
        let names = self.names(g);
        PartialSchedule {
            places: self.places.map(|place| place.map(|x| names.renamed(x))),
        }
    }
}
