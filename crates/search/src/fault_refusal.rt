ghost use Rattle.std.specs.Prelude.{◌≡◌};
ghost use Rattle.search.specs.Refusals.{search_refusal, page_refusal};

use crate::fault::{PageFault, SearchFault};
use refusal::layer::Layer;
use refusal::refusal::Refusal;

// The refusal that a fault of a call is told as.
impl From<SearchFault> for Refusal {
    ghost from_gives = { λ e r. r ≡ search_refusal e };

    fn from(value: SearchFault) -> Refusal {
        let number = match value {
            SearchFault::Table => 9,
            SearchFault::List => 10,
            SearchFault::Foreign => 11,
            SearchFault::Unsettled => 12,
        };
        Refusal {
            number,
            place: 0,
            layer: Layer::Search,
        }
    }
}

// The refusal that a fault of writing is told as.
impl From<PageFault> for Refusal {
    ghost from_gives = { λ e r. r ≡ page_refusal e };

    fn from(value: PageFault) -> Refusal {
        match value {
            PageFault::Search(fault) => Refusal::from(fault),
            PageFault::Short => Refusal {
                number: 16,
                place: 0,
                layer: Layer::Page,
            },
        }
    }
}
