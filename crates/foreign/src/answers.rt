use crate::told::Told;
use std::fmt;

// A line: what floor, best, advance by one step, and settle answer, one after the other.
#[derive(Drop)]
pub(crate) struct Answers {
    pub(crate) name: &'static str,
    pub(crate) floor: Told,
    pub(crate) best: Told,
    pub(crate) outcome: &'static str,
    pub(crate) settled: Told,
}

impl fmt::Display for Answers {
    fn fmt<W: fmt::Write>(&self, f: &mut fmt::Formatter<W>) -> fmt::Result {
        let Answers {
            name,
            floor,
            best,
            outcome,
            settled,
        } = self;
        write!(
            f,
            "{name}: floor {floor}, best {best}, {outcome}, {settled}"
        )
    }
}
