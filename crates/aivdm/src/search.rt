//! Splits at a byte that is probably near.
ghost use Rattle.std.specs.Prelude.{◌≡◌, ◌==◌, ◌+◌, ◌<◌, ◌≤◌, drop, length, position, take};
ghost use Rattle.aivdm.specs.Inner.LineCuts.{before_byte, after_byte};

use std::simd::prelude::*;

/// Returns the index of the first such byte among 16 bytes.
#[inline(always)]
fn first_of_sixteen(byte: u8, bytes: &[u8], at: usize) -> Option<usize>
    requires { at + 16 ≤ length bytes.now }
    ensures { result ≡ position (λ other. other == byte) (take 16 (drop at bytes.now)) }
{
    let mask = u8x16::from_slice(&bytes[at..])
        .simd_eq(u8x16::splat(byte))
        .to_bitmask();
    if mask == 0 {
        return None;
    }
    Some(mask.trailing_zeros() as usize)
}

/// Returns the index of the first such byte among 8 bytes.
#[inline(always)]
fn first_of_eight(byte: u8, bytes: &[u8], at: usize) -> Option<usize>
    requires { at + 8 ≤ length bytes.now }
    ensures { result ≡ position (λ other. other == byte) (take 8 (drop at bytes.now)) }
{
    let mask = u8x8::from_slice(&bytes[at..])
        .simd_eq(u8x8::splat(byte))
        .to_bitmask();
    if mask == 0 {
        return None;
    }
    Some(mask.trailing_zeros() as usize)
}

/// Returns the index of the first such byte. It compares 16 bytes at a time, because searches over single bytes took
/// most of the time of a line. It compares the last 16 bytes together even if this repeats some, because the processor
/// mispredicts the end of a loop over single bytes.
#[inline(always)]
pub(crate) fn first_of(byte: u8, bytes: &[u8]) -> Option<usize>
    ensures { result ≡ position (λ other. other == byte) bytes.now }
{
    if bytes.len() < 16 {
        return first_of_few(byte, bytes);
    }
    let last = bytes.len() - 16;
    let mut at = 0;
    'vectors: while at < last {
        match first_of_sixteen(byte, bytes, at) {
            Some(before) => return Some(at + before),
            None => at += 16,
        }
    }
    match first_of_sixteen(byte, bytes, last) {
        Some(before) => Some(last + before),
        None => None,
    }
}

/// Returns the same for fewer than 16 bytes, 8 at a time.
#[inline(always)]
fn first_of_few(byte: u8, bytes: &[u8]) -> Option<usize>
    requires { length bytes.now < 16 }
    ensures { result ≡ position (λ other. other == byte) bytes.now }
{
    if bytes.len() < 8 {
        return bytes.iter().position(|other| *other == byte);
    }
    let last = bytes.len() - 8;
    match (
        first_of_eight(byte, bytes, 0),
        first_of_eight(byte, bytes, last),
    ) {
        (Some(before), _) => Some(before),
        (None, Some(before)) => Some(last + before),
        (None, None) => None,
    }
}

/// Returns the bytes before the first such byte and those after it: all and none if there is no such byte.
#[inline(always)]
pub(crate) fn cut(byte: u8, bytes: &[u8]) -> (&[u8], &[u8])
    ensures before { result.0.now ≡ before_byte byte bytes.now }
    ensures after { result.1.now ≡ after_byte byte bytes.now }
{
    match first_of(byte, bytes) {
        Some(at) => (&bytes[..at], &bytes[at + 1..]),
        None => (bytes, b""),
    }
}
