ghost use Rattle.std.specs.Prelude.{◌≡◌};
ghost use Rattle.loader.specs.declared.faults.RecordsFault.TheVariants.{Bytes};
ghost use Rattle.loader.specs.declared.faults.GraphFault.TheVariants.{Records};

// The bytes do not hold the whole record that begins at `place`.
#[derive(Clone, Copy, PartialEq, Eq, Debug)]
pub struct BytesFault {
    pub place: usize,
}

// A record is not the one that is due, or bytes follow the last one. Each case has the place.
#[derive(Clone, Copy, PartialEq, Eq, Debug)]
pub enum RecordsFault {
    Bytes(BytesFault),
    Kind(usize),
    Length(usize),
    Tail(usize),
}

// The numbers of a record break the law of a graph, or the whole has a cycle.
#[derive(Clone, Copy, PartialEq, Eq, Debug)]
pub enum GraphFault {
    Records(RecordsFault),
    Range(usize),
    TooMany(usize),
    Twice(usize),
    Cycle(usize),
}

impl From<BytesFault> for RecordsFault {
    ghost from_gives = { λ e r. r ≡ Bytes e };

    fn from(value: BytesFault) -> RecordsFault {
        RecordsFault::Bytes(value)
    }
}

impl From<RecordsFault> for GraphFault {
    ghost from_gives = { λ e r. r ≡ Records e };

    fn from(value: RecordsFault) -> GraphFault {
        GraphFault::Records(value)
    }
}
