use bounds::lower_bound::LowerBound;
use loader::graph::TaskGraph;
use partial::partial::PartialSchedule;

// A rule that knows nothing. It is a lower bound too, and with it nothing is pruned.
#[derive(Clone, Copy)]
pub(crate) struct ZeroBound;

impl LowerBound for ZeroBound {
    ghost use Rattle.std.proofs.Common.{rules};

    ghost number = { λ _ _ _. 0 };

    ghost lower = { Prim.search rules };

    fn bound(&self, _g: &TaskGraph, _q: &PartialSchedule) -> u64 {
        0
    }
}
