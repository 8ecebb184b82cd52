//! Numbers as digits, which lie in a buffer of the caller's.
ghost use Rattle.std.specs.Prelude.{◌≡◌};
ghost use Rattle.std.specs.Fmt.{decimal, signed_decimal};
ghost use Rattle.report_csv.specs.CsvRows.{optional_decimal};

use itoa::Buffer;

/// Returns the digits of a number in decimal.
pub fn digits(buffer: &mut Buffer, number: u64) -> &[u8]
    ensures { result.now ≡ decimal number }
{
    buffer.format(number).as_bytes()
}

/// Returns the digits of a shorter number.
pub fn short_digits(buffer: &mut Buffer, number: u32) -> &[u8]
    ensures { result.now ≡ decimal number }
{
    buffer.format(number).as_bytes()
}

/// Returns the digits of a number with a sign, `-` where it is below 0.
pub fn signed_digits(buffer: &mut Buffer, number: i64) -> &[u8]
    ensures { result.now ≡ signed_decimal number }
{
    buffer.format(number).as_bytes()
}

/// Returns the digits of a number, or nothing.
pub fn optional_digits(buffer: &mut Buffer, number: Option<u16>) -> &[u8]
    ensures { result.now ≡ optional_decimal number }
{
    match number {
        Some(number) => short_digits(buffer, u32::from(number)),
        None => b"",
    }
}
