// Where a task is placed: its machine and its start.
#[derive(Clone, Copy, PartialEq, Eq, Debug)]
pub struct Placement {
    pub machine: u8,
    pub start: u32,
}
