//! The comparisons of tests as functions: proving a test that calls them takes a fraction of the time that the macros
//! take. A failure shows both values, under the name of the test.
ghost use Rattle.std.specs.Prelude.{IsTrue};

use out_of_memory::Memory;
use std::fmt::Debug;
use std::process::Abort;

/// Checks that the two values are equal.
pub(crate) fn is<T: PartialEq + Debug + Drop>(rt: &impl Abort, found: T, wanted: T) {
    assert_eq!(rt; found, wanted);
}

/// Checks that the claim holds.
pub(crate) fn is_true(rt: &impl Abort, claim: bool)
    ensures { IsTrue claim }
{
    assert!(rt; claim);
}

/// Checks that the two values are equal, unless memory ran out.
pub(crate) fn is_found<T: PartialEq + Debug + Drop>(
    rt: &impl Abort,
    found: Result<T, Memory>,
    wanted: T,
) -> Result<(), Memory> {
    is(rt, found?, wanted);
    Ok(())
}
