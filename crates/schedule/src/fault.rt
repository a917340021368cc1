// Why rows handed in are no feasible schedule: the lowest row or task at fault, or the number of
// rows wanted.
#[derive(Clone, Copy, PartialEq, Eq, Debug)]
pub enum CheckFault {
    Rows(usize),
    Early(usize),
    Overlap(usize),
}
