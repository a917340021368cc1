ghost use Rattle.std.specs.Prelude.{◌≡◌};
ghost use Rattle.schedule.specs.Refusals.{check_refusal};

use crate::fault::CheckFault;
use refusal::layer::Layer;
use refusal::refusal::Refusal;

// The refusal that a fault of the check is told as.
impl From<CheckFault> for Refusal {
    ghost from_gives = { λ e r. r ≡ check_refusal e };

    fn from(value: CheckFault) -> Refusal {
        let (number, place) = match value {
            CheckFault::Rows(place) => (13, place),
            CheckFault::Early(place) => (14, place),
            CheckFault::Overlap(place) => (15, place),
        };
        Refusal {
            number,
            place,
            layer: Layer::Check,
        }
    }
}
