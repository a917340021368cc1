ghost use Rattle.std.specs.Prelude.{◌≡◌, ◌+◌, ◌<◌, ◌≤◌, true};

use crate::placement::Placement;

// Names given to machines: machine m's, if it has one, and the next to be given.
#[derive(Clone, Copy)]
pub struct Names {
    pub names: [Option<u8>; 256],
    pub next: u8,
}

impl Names {
    ghost use Rattle.model.specs.Partial.{nothing};
    ghost use Rattle.model.specs.NormalForm.{naming, note};
    ghost use Rattle.partial.specs.Names.{the_names, renamed};

    // No machine has a name.
    #[tactic(auto, using(crate::proofs::Filled::none_is))]
    pub(crate) fn none() -> Names
        ensures { the_names result ≡ naming nothing 0 }
    {
        Names {
            names: [None; 256],
            next: 0,
        }
    }

    // Machine m takes the next name, unless it has one.
    pub(crate) fn note(&mut self, m: u8)
        requires { self.old.next < 255 }
        ensures is { the_names self.new ≡ note m true (the_names self.old) }
        ensures small { self.new.next ≤ self.old.next + 1 }
    {
        let name = &mut self.names[usize::from(m)];
        if name.is_none() {
            *name = Some(self.next);
            self.next += 1;
        }
    }

    // A placement under its machine's name, 0 where it has none.
    pub(crate) fn renamed(&self, x: Placement) -> Placement
        ensures { result ≡ renamed (the_names self.now) x }
    {
        Placement {
            machine: self.names[usize::from(x.machine)].unwrap_or(0),
            ..x
        }
    }
}
