//! Checks whether a payload is armour, 16 bytes at a time.
ghost use Rattle.std.specs.Prelude.{◌≡◌, ◌+◌, ◌≤◌, length, drop, take};
ghost use Rattle.std.specs.List.{list_all};
ghost use Rattle.aivdm.specs.PayloadBits.{is_armour};

use std::simd::prelude::*;

/// Returns whether a byte stands for six bits.
fn is_armour(byte: u8) -> bool
    ensures { result ≡ is_armour byte }
{
    matches!(byte, b'0'..=b'W' | b'`'..=b'w')
}

/// Returns whether the 16 bytes from index `at` on all stand for six bits.
#[inline(always)]
fn is_armoured_at(payload: &[u8], at: usize) -> bool
    requires { at + 16 ≤ length payload.now }
    ensures { result ≡ list_all is_armour (take 16 (drop at payload.now)) }
{
    let bytes = u8x16::from_slice(&payload[at..]);
    let low = bytes - u8x16::splat(b'0');
    let high = bytes - u8x16::splat(b'`');
    let bad = low.simd_ge(u8x16::splat(40)) & high.simd_ge(u8x16::splat(24));
    bad.to_bitmask() == 0
}

/// Returns whether each byte stands for six bits. The last load overlaps the one before it.
#[inline(always)]
pub(crate) fn is_armoured(payload: &[u8]) -> bool
    ensures { result ≡ list_all is_armour payload.now }
{
    if payload.len() < 16 {
        return payload.iter().all(|byte| is_armour(*byte));
    }
    let mut at = 0;
    while payload.len() - at > 16 {
        if !is_armoured_at(payload, at) {
            return false;
        }
        at += 16;
    }
    is_armoured_at(payload, payload.len() - 16)
}
