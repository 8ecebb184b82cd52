//! Numbers of the command line.
ghost use Rattle.std.specs.Prelude.{◌<◌, ◌^◌, ℕ, MatchOption};
ghost use Rattle.command_line.specs.Inner.Reading.{IsNumberIn};
ghost use Rattle.command_line.specs.GivenArguments.{IsNumber};

/// The number that the text writes.
fn number_of(text: &str) -> Option<u64>
    ensures { MatchOption result ((n : ℕ) → n < 2 ^ 64 → IsNumber text.now n
        → ⊥) (IsNumber text.now) }
{
    match text.parse::<u64>() {
        Ok(number) => Some(number),
        Err(_) => None,
    }
}

/// The number that the text writes, where it lies in the range.
pub(crate) fn number_in(text: &str, least: u64, most: u64) -> Option<u64>
    ensures { MatchOption result ((n : ℕ) → IsNumberIn least most text.now n
        → ⊥) (IsNumberIn least most text.now) }
{
    let Some(number) = number_of(text) else {
        return None;
    };
    if number < least {
        return None;
    }
    if most < number {
        return None;
    }
    Some(number)
}
