ghost use Rattle.cases.specs.Calls.{Calls, Ranges, Usages, Faults, Limits, Explained, Streams, Wants};

// The worked cases of the program: its calls, and what it says.
pub fn program_cases()
    ensures calls { Calls }
    ensures ranges { Ranges }
    ensures usages { Usages }
    ensures faults { Faults }
    ensures limits { Limits }
    ensures explained { Explained }
    ensures streams { Streams }
    ensures wants { Wants }
{}
