//! The comparisons of tests as functions: proving a test that calls them takes a fraction of the time that the macros
//! take. A failure shows both values, under the name of the test.
ghost use Rattle.std.specs.Prelude.{IsTrue};

use std::alloc::AllocError;
use std::fmt::Debug;
use std::process::Abort;

/// Checks that the two values are equal.
pub(crate) fn is<T: PartialEq + Debug + Drop>(rt: &impl Abort, found: T, wanted: T) {
    assert_eq!(rt; found, wanted);
}

/// Checks that the claim holds.
pub(crate) fn is_true(rt: &impl Abort, claim: bool)
    ensures { IsTrue claim }
{
    assert!(rt; claim);
}

/// Checks that the text is the wanted one, unless memory ran out.
pub(crate) fn is_text(
    rt: &impl Abort,
    made: Result<String, AllocError>,
    wanted: &str,
) -> Result<(), AllocError> {
    let made = made?;
    is(rt, made.as_str(), wanted);
    Ok(())
}
