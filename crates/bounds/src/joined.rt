use crate::arrival_bound::ArrivalBound;
use crate::larger_of::LargerOf;
use crate::load_bound::LoadBound;
use crate::path_bound::PathBound;

// The three rules joined: path, load and arrival.
pub const JOINED: LargerOf<LargerOf<PathBound, LoadBound>, ArrivalBound> = LargerOf {
    first: LargerOf {
        first: PathBound,
        second: LoadBound,
    },
    second: ArrivalBound,
};
