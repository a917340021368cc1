use anyhow::{Error, anyhow};
use astar::outcome::Outcome;
use refusal::refusal::Refusal;
use std::fmt;

// What a call answers: a number, a word or a refusal.
#[derive(Drop)]
pub(crate) enum Told {
    Number(u64),
    Word(&'static str),
    Refused(Refusal),
}

impl fmt::Display for Told {
    fn fmt<W: fmt::Write>(&self, f: &mut fmt::Formatter<W>) -> fmt::Result {
        match self {
            Told::Number(number) => write!(f, "{number}"),
            Told::Word(word) => write!(f, "{word}"),
            Told::Refused(refusal) => write!(f, "{refusal}"),
        }
    }
}

impl Told {
    pub(crate) fn number<F: Into<Refusal>>(answer: Result<u64, F>) -> Told {
        match answer {
            Ok(number) => Told::Number(number),
            Err(fault) => Told::Refused(fault.into()),
        }
    }
}

// An outcome as a word.
pub(crate) fn word(outcome: Outcome) -> &'static str {
    match outcome {
        Outcome::Strange => "strange",
        Outcome::Met => "met",
        Outcome::Paused => "paused",
        Outcome::Full => "full",
    }
}

// A refusal that ends the program: none of the graphs and none of the scenes that it makes should be refused.
pub(crate) fn refused(refusal: Refusal) -> Error {
    anyhow!("{refusal}")
}
