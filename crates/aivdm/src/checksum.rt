//! The checksum of a sentence and of a tag block.
ghost use Rattle.std.specs.Prelude.{◌≡◌, ◌<◌, ◌≤◌, ◌*◌, ◌/◌, bit_xor, drop, fold, length, replicate, if◌then◌else◌};
ghost use Rattle.std.specs.Char.{digit_value, is_digit};
ghost use Rattle.std.specs.Simd.{first_chunks};
ghost use Rattle.std.specs.Simd.Lanes.{zip2};
ghost use Rattle.aivdm.specs.Checksums.{hexadecimal, sum_of};

use std::simd::prelude::*;

/// Returns the exclusive or of the bytes: 16 at a time, and the rest after the last whole block in one more vector. The
/// processor would mispredict the end of a loop over single bytes.
#[inline(always)]
pub(crate) fn sum_of(bytes: &[u8]) -> u8
    ensures { result ≡ sum_of bytes.now }
{
    if bytes.len() < 16 {
        return bytes.iter().fold(0, |sum, byte| sum ^ *byte);
    }
    (sum_of_blocks(bytes) ^ behind_blocks(bytes)).reduce_xor()
}

/// Returns the exclusive or of the whole blocks of 16 bytes, lane by lane.
#[inline(always)]
fn sum_of_blocks(bytes: &[u8]) -> u8x16
    ensures { result ≡ fold (zip2 bit_xor) (replicate 16 0)
        (first_chunks 16 (length bytes.now / 16) bytes.now) }
{
    let (blocks, _) = bytes.as_chunks::<16>();
    let mut sum = u8x16::splat(0);
    for block in blocks {
        sum = sum ^ u8x16::from_array(*block);
    }
    sum
}

/// The index of each lane.
const PLACES: [u8; 16] = [0, 1, 2, 3, 4, 5, 6, 7, 8, 9, 10, 11, 12, 13, 14, 15];

/// Returns the bytes after the last whole block, each in a lane, and 0 in the other lanes. It always loads the last 16
/// bytes and then clears those that a block already has, because a byte that counts twice would cancel itself.
#[inline(always)]
fn behind_blocks(bytes: &[u8]) -> u8x16
    requires { 16 ≤ length bytes.now }
    ensures { sum_of result ≡ sum_of (drop (length bytes.now / 16 * 16) bytes.now) }
{
    let last = u8x16::from_slice(&bytes[bytes.len() - 16..]);
    let in_blocks = 16 - bytes.len() % 16;
    let is_behind = u8x16::from_array(PLACES).simd_ge(u8x16::splat(in_blocks as u8));
    is_behind.select(last, u8x16::splat(0))
}

/// Returns the number that two hexadecimal digits of either case spell.
#[inline(always)]
pub(crate) fn hexadecimal(high: u8, low: u8) -> Option<u8>
    ensures { result ≡ hexadecimal high low }
{
    let high = digit(high);
    let low = digit(low);
    if high >= 16 || low >= 16 {
        return None;
    }
    Some(16 * high + low)
}

/// Returns the value of a hexadecimal digit of either case, by the table: the processor would mispredict a branch on
/// whether it is a letter on almost half of all lines.
#[inline(always)]
fn digit(byte: u8) -> u8
    ensures { result ≡ (if is_digit byte 16 then digit_value byte else 16) }
{
    VALUES[usize::from(byte)]
}

/// The value of each byte as a hexadecimal digit of either case, or 16 if it is not one.
static VALUES: [u8; 256] = [
    16, 16, 16, 16, 16, 16, 16, 16, 16, 16, 16, 16, 16, 16, 16, 16, 16, 16, 16, 16, 16, 16, 16, 16,
    16, 16, 16, 16, 16, 16, 16, 16, 16, 16, 16, 16, 16, 16, 16, 16, 16, 16, 16, 16, 16, 16, 16, 16,
    0, 1, 2, 3, 4, 5, 6, 7, 8, 9, 16, 16, 16, 16, 16, 16, 16, 10, 11, 12, 13, 14, 15, 16, 16, 16,
    16, 16, 16, 16, 16, 16, 16, 16, 16, 16, 16, 16, 16, 16, 16, 16, 16, 16, 16, 16, 16, 16, 16, 10,
    11, 12, 13, 14, 15, 16, 16, 16, 16, 16, 16, 16, 16, 16, 16, 16, 16, 16, 16, 16, 16, 16, 16, 16,
    16, 16, 16, 16, 16, 16, 16, 16, 16, 16, 16, 16, 16, 16, 16, 16, 16, 16, 16, 16, 16, 16, 16, 16,
    16, 16, 16, 16, 16, 16, 16, 16, 16, 16, 16, 16, 16, 16, 16, 16, 16, 16, 16, 16, 16, 16, 16, 16,
    16, 16, 16, 16, 16, 16, 16, 16, 16, 16, 16, 16, 16, 16, 16, 16, 16, 16, 16, 16, 16, 16, 16, 16,
    16, 16, 16, 16, 16, 16, 16, 16, 16, 16, 16, 16, 16, 16, 16, 16, 16, 16, 16, 16, 16, 16, 16, 16,
    16, 16, 16, 16, 16, 16, 16, 16, 16, 16, 16, 16, 16, 16, 16, 16, 16, 16, 16, 16, 16, 16, 16, 16,
    16, 16, 16, 16, 16, 16, 16, 16, 16, 16, 16, 16, 16, 16,
];
