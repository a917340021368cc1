// How many tasks, machines and nodes there were when a search was opened.
#[derive(Clone, Copy, PartialEq, Eq, Debug)]
pub struct Sizes {
    pub tasks: usize,
    pub machines: usize,
    pub nodes: usize,
}
