ghost use Rattle.std.specs.Prelude.{◌≡◌, ◌↔◌, IsTrue, length, None, slice_index_or};

use crate::placement::Placement;

mod append;
mod measures;
mod normal_form;

// A partial schedule: the placement of each task that is placed.
#[derive(Clone, Copy, PartialEq, Eq, Debug)]
pub struct PartialSchedule {
    places: [Option<Placement>; 32],
    ghost sized: { length places ≡ 32 },
}

impl PartialSchedule {
    ghost use Rattle.model.specs.Partial.{nothing};
    ghost use Rattle.model.specs.Nodes.{is_duplicate};
    ghost use Rattle.partial.specs.Meaning.{the_partial};

    // Nothing is placed.
    pub fn empty() -> PartialSchedule
        ensures { the_partial result ≡ nothing }
    {
        PartialSchedule { places: [None; 32] }
    }

    // Where task t is placed.
    pub fn placement(&self, t: usize) -> Option<Placement>
        ensures { result ≡ slice_index_or self.now.places t None }
    {
        self.places.get(t).copied().flatten()
    }

    // Whether task t is placed.
    pub fn is_placed(&self, t: usize) -> bool
        ensures { result ≡ (the_partial self.now).placed t }
    {
        self.placement(t).is_some()
    }

    // The machine of task t, 0 where it is not placed. As an Option it would be no plainer: the model's function is
    // total, and `placement` has the Option.
    pub fn machine(&self, t: usize) -> u8
        ensures { result ≡ (the_partial self.now).machine t }
    {
        self.placement(t).map_or(0, |p| p.machine)
    }

    // The start of task t, 0 where it is not placed, as `machine`.
    pub fn start(&self, t: usize) -> u32
        ensures { result ≡ (the_partial self.now).start t }
    {
        self.placement(t).map_or(0, |p| p.start)
    }

    // Whether both place the same tasks, on the same machines at the same starts.
    pub fn is_duplicate(&self, other: &PartialSchedule) -> bool
        ensures is { result ≡ is_duplicate (the_partial self.now) (the_partial other.now) }
        ensures same { IsTrue result ↔ (self.now.places ≡ other.now.places) }
    {
        self == other
    }
}

// The partial schedule of these placements, task by task.
impl From<[Option<Placement>; 32]> for PartialSchedule {
    ghost from_gives = { λ places result. result.places ≡ places };

    fn from(places: [Option<Placement>; 32]) -> PartialSchedule {
        PartialSchedule { places }
    }
}
