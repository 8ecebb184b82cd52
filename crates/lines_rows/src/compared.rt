//! The comparisons of tests as functions: proving a test that calls them takes a fraction of the time that the macros
//! take. A failure shows both values, under the name of the test. For tables with many rows, both values include the
//! title of the row.
use std::fmt::Debug;
use std::process::Abort;

/// Checks that the two values are equal.
pub(crate) fn is<T: PartialEq + Debug + Drop>(rt: &impl Abort, found: T, wanted: T) {
    assert_eq!(rt; found, wanted);
}

/// Checks that the claim holds.
pub(crate) fn is_true(rt: &impl Abort, claim: bool) {
    is(rt, claim, true);
}
