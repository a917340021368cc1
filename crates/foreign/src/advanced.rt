use crate::told::Told;
use astar::tally::Tally;
use std::fmt;

// A line: how advance by so many steps ends, what the search did, floor and best.
#[derive(Drop)]
pub(crate) struct Advanced {
    pub(crate) steps: u64,
    pub(crate) outcome: &'static str,
    pub(crate) done: Done,
    pub(crate) floor: Told,
    pub(crate) best: Told,
}

// What a search did.
#[derive(Drop)]
pub(crate) struct Done(pub(crate) Tally);

impl fmt::Display for Advanced {
    fn fmt<W: fmt::Write>(&self, f: &mut fmt::Formatter<W>) -> fmt::Result {
        let Advanced {
            steps,
            outcome,
            done,
            floor,
            best,
        } = self;
        write!(
            f,
            "by {steps}: {outcome}, {done}, floor {floor}, best {best}"
        )
    }
}

impl fmt::Display for Done {
    fn fmt<W: fmt::Write>(&self, f: &mut fmt::Formatter<W>) -> fmt::Result {
        let Tally {
            expanded,
            generated,
            stored,
            duplicates,
            pruned,
            complete,
            waiting,
        } = &self.0;
        write!(
            f,
            "expanded {expanded} generated {generated} stored {stored} duplicates {duplicates} "
        )?;
        write!(f, "pruned {pruned} complete {complete} waiting {waiting}")
    }
}
