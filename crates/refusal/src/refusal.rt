use crate::layer::Layer;
use std::fmt;

// What is told of a refusal: its number, the place, and the layer that refused.
#[derive(Clone, Copy, PartialEq, Eq, Debug)]
pub struct Refusal {
    // A plain number: the fault types of the layers are the enums of the cases.
    pub number: u8,
    pub place: usize,
    pub layer: Layer,
}

// As `refused 4 at 8 in graph`.
impl fmt::Display for Refusal {
    ghost use Rattle.std.specs.Prelude.{Some};
    ghost use Rattle.refusal.specs.Wording.{wording};

    ghost output = { λ r. Some (wording r) };

    fn fmt<W: fmt::Write>(&self, f: &mut fmt::Formatter<W>) -> fmt::Result {
        let Refusal {
            number,
            place,
            layer,
        } = *self;
        write!(f, "refused {number} at {place} in {layer}")
    }
}
