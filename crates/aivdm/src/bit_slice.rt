//! The bits of a message, in place.
ghost use Rattle.std.specs.Prelude.{◌≡◌, ◌==◌, ◌+◌, ◌*◌, ◌^◌, ◌<◌, ◌≤◌, ◌++◌, drop, length, map, take, All, IsTrue};
ghost use Rattle.aivdm.specs.BitFields.{bits_value, signed_at, unsigned_at};
ghost use Rattle.aivdm.specs.PayloadBits.{bits_of, is_armour, six_bits};
ghost use Rattle.aivdm.specs.Sentences.{fields_seen, IsSentence};
ghost use Rattle.aivdm.specs.Inner.Sextets.{bits_in};

use crate::bits::dearmour;
use crate::sentence::Sentence;
use std::marker::Model;
use std::simd::prelude::*;

/// The bits of a message, borrowed.
#[derive(Drop)]
pub struct BitSlice<'a> {
    /// Six bits per element, the highest first. The last element may have unused bits.
    pub(crate) sextets: &'a [u8],
    pub(crate) len: usize,
}

impl<'a> Model for BitSlice<'a> {
    ghost use Rattle.std.specs.Prelude.{List, Bool, take};
    ghost use Rattle.aivdm.specs.Inner.Sextets.{bits_in, AreSextets};

    ghost Value = { List Bool };

    ghost view = { λ b. take b.len (bits_in b.sextets.now) };

    ghost invariant = { λ b. AreSextets b.sextets.now b.len };
}

impl<'a> BitSlice<'a> {
    /// Returns the number of bits.
    #[inline(always)]
    pub fn len(&self) -> usize
        ensures { result ≡ length self.now }
    {
        self.len
    }

    /// Returns whether there are no bits.
    pub fn is_empty(&self) -> bool
        ensures { result ≡ (length self.now == 0) }
    {
        self.len() == 0
    }

    /// Returns the number in `width` bits from bit `first` on, which is counted from 0.
    #[inline(always)]
    pub fn unsigned(&self, first: usize, width: u32) -> u32
        requires some { 1 ≤ width }
        requires most { width ≤ 32 }
        requires within { first + width ≤ length self.now }
        ensures value { result ≡ unsigned_at self.now first width }
        ensures bound { result < 2 ^ width }
    {
        prove!(first < self.len);
        let last = first + width as usize - 1;
        let number = number(&self.sextets[first / 6..last / 6 + 1]);
        let after = 5 - last % 6;
        ((number >> after) % (1 << width)) as u32
    }

    /// Returns the number in `width` bits from bit `first` on, in two's complement.
    #[inline(always)]
    pub fn signed(&self, first: usize, width: u32) -> i32
        requires some { 1 ≤ width }
        requires most { width ≤ 32 }
        requires within { first + width ≤ length self.now }
        ensures { result ≡ signed_at self.now first width }
    {
        let value = self.unsigned(first, width);
        if value < 1 << (width - 1) {
            value as i32
        } else {
            (i64::from(value) - (1 << width)) as i32
        }
    }
}

/// Returns the number in the bits of some sextets.
#[inline(always)]
fn number(sextets: &[u8]) -> u64
    requires few { length sextets.now ≤ 10 }
    requires six { All (λ sextet. sextet < 64) sextets.now }
    ensures { result ≡ bits_value (bits_in sextets.now) }
{
    let mut number = 0;
    for sextet in sextets {
        number = number * 64 + u64::from(*sextet);
    }
    number
}

/// Writes the six bits of each of 16 payload bytes into the room, at the same index as in the payload.
#[inline(always)]
fn put_sextets(room: &mut [u8], payload: &[u8], at: usize)
    requires payload { at + 16 ≤ length payload.now }
    requires room { at + 16 ≤ length room.old }
    requires armoured { All (λ byte. IsTrue (is_armour byte)) payload.now }
    ensures put { take (at + 16) room.new
        ≡ take at room.old ++ map six_bits (take 16 (drop at payload.now)) }
    ensures len { length room.new ≡ length room.old }
{
    let bytes = u8x16::from_slice(&payload[at..]);
    let high = bytes.simd_ge(u8x16::splat(96));
    high.select(bytes - u8x16::splat(56), bytes - u8x16::splat(48))
        .copy_to_slice(&mut room[at..]);
}

/// Writes the six bits of each of a few payload bytes to the front of the room.
fn put_few_sextets(room: &mut [u8], payload: &[u8])
    requires room { length payload.now ≤ length room.old }
    requires armoured { All (λ byte. IsTrue (is_armour byte)) payload.now }
    ensures { take (length payload.now) room.new ≡ map six_bits payload.now }
{
    let front = &mut room[..payload.len()];
    front.copy_from_slice(payload);
    dearmour(front);
}

/// Writes the six bits of each payload byte to the front of the room, 16 at a time. The last 16 may overlap the
/// previous ones.
#[inline(always)]
fn put_all_sextets(room: &mut [u8], payload: &[u8])
    requires room { length payload.now ≤ length room.old }
    requires armoured { All (λ byte. IsTrue (is_armour byte)) payload.now }
    ensures { take (length payload.now) room.new ≡ map six_bits payload.now }
{
    if payload.len() < 16 {
        put_few_sextets(room, payload);
        return;
    }
    let mut at = 0;
    while payload.len() - at > 16 {
        put_sextets(room, payload, at);
        at += 16;
    }
    put_sextets(room, payload, payload.len() - 16);
}

/// Room for the bits of one sentence.
#[derive(Drop)]
pub struct SentenceRoom {
    sextets: [u8; 1024],
}

impl SentenceRoom {
    /// Returns empty room.
    pub fn new() -> SentenceRoom {
        SentenceRoom { sextets: [0; 1024] }
    }

    /// Returns the bits of a sentence, without its fill. They are stored in the room and take no memory.
    #[inline(always)]
    pub fn bits_of(&mut self, sentence: &Sentence<'_>) -> BitSlice<'_>
        requires { IsSentence (fields_seen sentence.now) }
        ensures { result ≡ bits_of sentence.now.payload.now sentence.now.fill }
    {
        put_all_sextets(&mut self.sextets, sentence.payload);
        let count = sentence.payload.len();
        BitSlice {
            sextets: &self.sextets[..count],
            len: 6 * count - sentence.fill as usize,
        }
    }
}
