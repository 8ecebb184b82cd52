//! The comparisons of tests as functions: proving a test that calls them takes a fraction of the time that the macros
//! take. A failure shows both values, under the name of the test.
#![tactic(auto)]

ghost use Rattle.std.specs.Prelude.{◌≡◌, ◌↔◌, IsOk, true};

use std::fmt::Debug;
use std::test::Fail;

/// Checks that the two values are equal.
pub fn is<T: PartialEq + Debug + Drop>(found: T, wanted: T) -> Result<(), Fail>
    ensures { IsOk result ↔ (T.eq found wanted ≡ true) }
{
    if found == wanted {
        return Ok(());
    }
    Err(Fail::new(format_args!("found {found:?}, and not {wanted:?}")))
}

/// Checks that the claim holds.
pub fn is_true(claim: bool) -> Result<(), Fail>
    ensures { IsOk result ↔ (claim ≡ true) }
{
    if claim {
        return Ok(());
    }
    Err(Fail::new("what is claimed does not hold"))
}
