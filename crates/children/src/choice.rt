// A free task and a machine that it is tried on.
#[derive(Clone, Copy, PartialEq, Eq, Debug)]
pub struct Choice {
    pub task: usize,
    pub machine: u8,
}
