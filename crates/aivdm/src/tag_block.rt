//! The tag block before a sentence, and the time in it.
ghost use Rattle.std.specs.Prelude.{◌≡◌, ◌==◌, ◌+◌, ◌≤◌, ◌∷◌, [], Err, Ok, None, Some, drop, length, not, take, true, if◌then◌else◌};
ghost use Rattle.std.specs.Char.{is_ascii_digit};
ghost use Rattle.std.specs.List.{list_all, slice_split};
ghost use Rattle.std.specs.Str.{all_ascii_digits};
ghost use Rattle.std.specs.Str.Parse.{digits_value};
ghost use Rattle.aivdm.specs.TagBlocks.{seconds_of};
ghost use Rattle.aivdm.specs.Inner.LineCuts.{block_at, block_end, first_time, stamp_in, tag_at, time_in, time_of};
ghost use Rattle.aivdm.specs.Inner.Seen.{end_seen, parts_left, tagged_seen};

use crate::checksum::{hexadecimal, sum_of};
use crate::search::{cut, first_of};
use crate::sentence::LineCause;
use std::simd::prelude::*;

/// A line without its tag block.
#[derive(Clone, Copy)]
pub(crate) struct Tagged<'a> {
    /// In seconds since the Unix epoch.
    pub(crate) stamp: Option<u64>,
    pub(crate) rest: &'a [u8],
}

/// Splits the tag block off a line, if it has one.
#[inline(always)]
#[tactic(auto, unfolding(crate::specs::Inner::LineCuts::tag_at))]
pub(crate) fn without_tag(line: &[u8]) -> Result<Tagged<'_>, LineCause>
    ensures { tagged_seen result ≡ tag_at line.now }
{
    match line {
        [b'\\', bytes @ ..] => read_block(bytes),
        _ => Ok(Tagged {
            stamp: None,
            rest: line,
        }),
    }
}

/// Reads a tag block after its first backslash.
#[tactic(auto, unfolding(crate::specs::Inner::LineCuts::block_at))]
fn read_block(bytes: &[u8]) -> Result<Tagged<'_>, LineCause>
    ensures { tagged_seen result ≡ block_at bytes.now }
{
    let (content, behind) = cut(b'*', bytes);
    let (told, rest) = read_end(behind)?;
    if told != sum_of(content) {
        return Err(LineCause::Tag);
    }
    let stamp = stamp_in(content)?;
    Ok(Tagged { stamp, rest })
}

/// Reads the checksum after the `*`, and what follows the second backslash.
#[tactic(auto, unfolding(crate::specs::Inner::LineCuts::block_end))]
fn read_end(bytes: &[u8]) -> Result<(u8, &[u8]), LineCause>
    ensures { end_seen result ≡ block_end bytes.now }
{
    match bytes {
        [high, low, b'\\', rest @ ..] => match hexadecimal(*high, *low) {
            Some(told) => Ok((told, rest)),
            None => Err(LineCause::Tag),
        },
        _ => Err(LineCause::Tag),
    }
}

/// Returns the stamp in the fields of a tag block.
#[tactic(auto, unfolding(crate::specs::Inner::LineCuts::stamp_in))]
fn stamp_in(content: &[u8]) -> Result<Option<u64>, LineCause>
    ensures { result ≡ stamp_in content.now }
{
    if first_of(b'\\', content).is_some() {
        return Err(LineCause::Tag);
    }
    let mut stamp = None;
    let mut left = Some(content);
    while let Some(fields) = left {
        let (field, others) = first_field(fields);
        let time = time_in(field)?;
        stamp = stamp.or(time);
        left = others;
    }
    Ok(stamp)
}

/// Returns the bytes before the first comma, and those after it, if there is one.
fn first_field(fields: &[u8]) -> (&[u8], Option<&[u8]>)
    ensures { slice_split (λ byte. byte == 44) fields.now ≡ result.0.now ∷ parts_left result.1 }
{
    match first_of(b',', fields) {
        Some(at) => (&fields[..at], Some(&fields[at + 1..])),
        None => (fields, None),
    }
}

/// Returns the time in a field, or none.
#[tactic(auto, unfolding(crate::specs::Inner::LineCuts::time_in))]
fn time_in(field: &[u8]) -> Result<Option<u64>, LineCause>
    ensures { result ≡ time_in field.now }
{
    match field {
        [] => Err(LineCause::Tag),
        [b'c', b':', digits @ ..] => time_of(digits),
        _ => Ok(None),
    }
}

/// Returns the time that decimal digits spell: seconds, or milliseconds from 10^11 on.
#[tactic(auto, unfolding(crate::specs::Inner::LineCuts::time_of))]
fn time_of(digits: &[u8]) -> Result<Option<u64>, LineCause>
    ensures { result ≡ time_of digits.now }
{
    if digits.is_empty() || digits.len() > 15 {
        return Err(LineCause::Tag);
    }
    match decimal(digits) {
        Some(time) => Ok(Some(seconds_of(time))),
        None => Err(LineCause::Tag),
    }
}

/// Returns a time in seconds.
fn seconds_of(time: u64) -> u64
    ensures { result ≡ seconds_of time }
{
    if time < 100_000_000_000 {
        time
    } else {
        time / 1000
    }
}

/// The number of digits of a time in seconds, from the year 2001 to the year 2286.
const SECONDS_DIGITS: usize = 10;

/// Returns the number that decimal digits spell.
fn decimal(digits: &[u8]) -> Option<u64>
    requires { length digits.now ≤ 15 }
    ensures { result ≡ (if all_ascii_digits digits.now then Some (digits_value 10 digits.now)
        else None) }
{
    if !are_digits(digits) {
        return None;
    }
    // If the count is constant, the compiler unrolls the loop.
    if digits.len() == SECONDS_DIGITS {
        Some(spelled(&digits[..SECONDS_DIGITS]))
    } else {
        Some(spelled(digits))
    }
}

/// Returns whether all of at most 16 bytes are decimal digits. Two vectors of 8 bytes may overlap and compare some
/// bytes twice.
#[inline(always)]
fn are_digits(bytes: &[u8]) -> bool
    requires { length bytes.now ≤ 16 }
    ensures { result ≡ list_all is_ascii_digit bytes.now }
{
    if bytes.len() < 8 {
        return bytes.iter().all(|byte| byte.is_ascii_digit());
    }
    let front = are_digits_at(bytes, 0);
    let back = are_digits_at(bytes, bytes.len() - 8);
    front && back
}

/// Returns whether the 8 bytes from index `at` on are decimal digits.
#[inline(always)]
fn are_digits_at(bytes: &[u8], at: usize) -> bool
    requires { at + 8 ≤ length bytes.now }
    ensures { result ≡ list_all is_ascii_digit (take 8 (drop at bytes.now)) }
{
    let values = u8x8::from_slice(&bytes[at..]) - u8x8::splat(b'0');
    values.simd_ge(u8x8::splat(10)).to_bitmask() == 0
}

/// Returns the number that these digits spell.
#[inline(always)]
fn spelled(digits: &[u8]) -> u64
    requires few { length digits.now ≤ 15 }
    requires decimal { all_ascii_digits digits.now ≡ true }
    ensures { result ≡ digits_value 10 digits.now }
{
    let mut number = 0;
    for digit in digits {
        let value = u64::from(*digit) - u64::from(b'0');
        number = 10 * number + value;
    }
    number
}
