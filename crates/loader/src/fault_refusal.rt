ghost use Rattle.std.specs.Prelude.{◌≡◌};
ghost use Rattle.loader.specs.Refusals.{refusal_of};

use crate::faults::{GraphFault, RecordsFault};
use refusal::layer::Layer;
use refusal::refusal::Refusal;

// The refusal that a fault is told as.
impl From<GraphFault> for Refusal {
    ghost from_gives = { λ e r. r ≡ refusal_of e };

    fn from(value: GraphFault) -> Refusal {
        let (number, place, layer) = match value {
            GraphFault::Records(RecordsFault::Bytes(b)) => (1, b.place, Layer::Bytes),
            GraphFault::Records(RecordsFault::Kind(place)) => (2, place, Layer::Records),
            GraphFault::Records(RecordsFault::Length(place)) => (3, place, Layer::Records),
            GraphFault::Records(RecordsFault::Tail(place)) => (7, place, Layer::Records),
            GraphFault::Range(place) => (4, place, Layer::Graph),
            GraphFault::TooMany(place) => (5, place, Layer::Graph),
            GraphFault::Twice(place) => (6, place, Layer::Graph),
            GraphFault::Cycle(place) => (8, place, Layer::Graph),
        };
        Refusal {
            number,
            place,
            layer,
        }
    }
}
