ghost use Rattle.std.specs.Prelude.{◌≤◌};

// How many tasks and machines a graph has.
#[derive(Clone, Copy, PartialEq, Eq, Debug)]
pub(crate) struct Sizes {
    pub(crate) tasks: usize,
    pub(crate) machines: usize,
    ghost few: { tasks ≤ 32 },
}
