use crate::lower_bound::LowerBound;
use loader::graph::TaskGraph;
use partial::partial::PartialSchedule;

// The greater answer of two lower bounds.
#[derive(Clone, Copy)]
pub struct LargerOf<A, B> {
    pub first: A,
    pub second: B,
}

impl<A: LowerBound, B: LowerBound> LowerBound for LargerOf<A, B> {
    ghost use Rattle.model.specs.Bounds.{larger};
    ghost use Rattle.model.proofs.Paths.{larger-lower};

    ghost number = { λ rule. larger (A.number rule.first) (B.number rule.second) };

    ghost lower = { λ rule. larger-lower _ _ (A.lower rule.first) (B.lower rule.second) };

    fn bound(&self, g: &TaskGraph, q: &PartialSchedule) -> u64 {
        self.first.bound(g, q).max(self.second.bound(g, q))
    }
}
