use std::fmt;

// The layers that refuse.
#[derive(Clone, Copy, PartialEq, Eq, Debug)]
pub enum Layer {
    Bytes,
    Records,
    Graph,
    Search,
    Check,
    Page,
}

impl Layer {
    ghost use Rattle.std.specs.Prelude.{◌≡◌};
    ghost use Rattle.refusal.specs.Names.{name_of};

    // The layer as refusals name it.
    pub fn name(&self) -> &'static str
        ensures { result.now ≡ name_of self.now }
    {
        match *self {
            Layer::Bytes => "bytes",
            Layer::Records => "records",
            Layer::Graph => "graph",
            Layer::Search => "search",
            Layer::Check => "check",
            Layer::Page => "page",
        }
    }
}

impl fmt::Display for Layer {
    ghost use Rattle.std.specs.Prelude.{Some};
    ghost use Rattle.refusal.specs.Names.{name_of};

    ghost output = { λ l. Some (name_of l) };

    fn fmt<W: fmt::Write>(&self, f: &mut fmt::Formatter<W>) -> fmt::Result {
        f.write_str(self.name())
    }
}
