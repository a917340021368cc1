use std::fmt::Debug;
use std::process::Abort;

// One assertion for all tests, as each `assert_eq!` of their own would be proved anew.
pub(crate) fn same<T: PartialEq + Debug>(rt: &impl Abort, told: &T, wanted: &T) {
    assert_eq!(rt; told, wanted);
}
