// The buffer has less room than the text needs.
#[derive(Clone, Copy, PartialEq, Eq, Debug)]
pub(crate) struct ShortBuffer;
