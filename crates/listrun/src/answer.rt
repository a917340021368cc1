ghost use Rattle.std.specs.Prelude.{Some};
ghost use Rattle.listrun.specs.Answers.{wording};

use queue::entry::Entry;
use std::fmt;

// What an open list answers.
#[derive(Clone, Copy, PartialEq, Eq, Debug)]
pub enum Answer {
    Added(Entry),
    Full(Entry),
    Shown(Entry),
    Taken(Entry),
    Empty,
}

impl fmt::Display for Answer {
    ghost output = { λ a. Some (wording a) };

    fn fmt<W: fmt::Write>(&self, f: &mut fmt::Formatter<W>) -> fmt::Result {
        match *self {
            Answer::Added(e) => write!(f, "+{e}"),
            Answer::Full(e) => write!(f, "full {e}"),
            Answer::Shown(e) => write!(f, "?{e}"),
            Answer::Taken(e) => write!(f, "-{e}"),
            Answer::Empty => write!(f, "empty"),
        }
    }
}
