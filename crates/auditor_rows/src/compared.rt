//! The comparison of a test as a function: proving a test that calls it takes a fraction of the time that the macros
//! take. A failure shows both values, under the name of the test.
use std::fmt::Debug;
use std::process::Abort;

/// Checks that the two values are equal.
pub(crate) fn is<T: PartialEq + Debug + Drop>(rt: &impl Abort, found: T, wanted: T) {
    assert_eq!(rt; found, wanted);
}
