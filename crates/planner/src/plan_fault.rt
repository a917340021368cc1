use refusal::refusal::Refusal;
use std::alloc::AllocError;

/// Why there is no plan.
#[derive(Clone, Copy, PartialEq, Eq, Debug)]
pub enum PlanFault {
    /// The run file is refused.
    Refused(Refusal),
    /// There is not enough memory for the search.
    Memory(AllocError),
}

impl From<Refusal> for PlanFault {
    ghost use Rattle.std.specs.Prelude.{◌≡◌};
    ghost use Rattle.planner.specs.declared.plan_fault.PlanFault.TheVariants.{Refused};

    ghost from_gives = { λ e r. r ≡ Refused e };

    fn from(value: Refusal) -> PlanFault {
        PlanFault::Refused(value)
    }
}

impl From<AllocError> for PlanFault {
    ghost use Rattle.std.specs.Prelude.{◌≡◌};
    ghost use Rattle.planner.specs.declared.plan_fault.PlanFault.TheVariants.{Memory};

    ghost from_gives = { λ e r. r ≡ Memory e };

    fn from(value: AllocError) -> PlanFault {
        PlanFault::Memory(value)
    }
}
