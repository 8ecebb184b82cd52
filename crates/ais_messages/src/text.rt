//! Texts of messages.
ghost use Rattle.std.specs.Prelude.{◌≡◌, ◌==◌, ◌+◌, ◌*◌, ◌<◌, ◌≤◌, length, position, take};
ghost use Rattle.ais_messages.specs.SixBitText.{before_at, character_of, characters_at, text_at, trimmed};

use aivdm::{BitSlice, Bits};
use std::marker::Model;

/// A text of at most 20 ASCII characters, such as a ship's name (ITU-R M.1371-5, annex 8, table 47). Its model is the
/// list of its bytes.
#[derive(Debug, Drop)]
pub struct Text20 {
    bytes: [u8; 20],
    len: usize,
}

impl Model for Text20 {
    ghost use Rattle.std.specs.Prelude.{List, ℕ, ◌≤◌, take};

    ghost Value = { List ℕ };

    ghost view = { λ t. take t.len t.bytes };

    ghost invariant = { λ t. t.len ≤ 20 };
}

impl Text20 {
    /// Returns the bytes of the text, at most 20.
    pub fn bytes(&self) -> &[u8]
        ensures same { result.now ≡ self.now }
        ensures few { length result.now ≤ 20 }
    {
        &self.bytes[..self.len]
    }

    /// Returns an equal text.
    pub fn same(&self) -> Text20
        ensures { result ≡ self.now }
    {
        Text20 {
            bytes: self.bytes,
            len: self.len,
        }
    }
}

impl PartialEq for Text20 {
    ghost use Rattle.std.specs.Prelude.{bytes_eq};
    ghost use Rattle.std.proofs.Common.{rules};
    ghost use Rattle.std.specs.Cmp.Rules.{comparing};

    ghost eq = { bytes_eq };

    ghost laws = { Prim.search (comparing, rules) };

    fn eq(&self, other: &Text20) -> bool {
        self.bytes() == other.bytes()
    }
}

/// Returns the character of six bits, in ASCII: 0 to 31 are `@`, the capital letters, and `[` to `_`; 32 to 63 are
/// space to `?`.
fn character(value: u32) -> u8
    requires { value < 64 }
    ensures { result ≡ character_of value }
{
    if value < 32 {
        (value + 64) as u8
    } else {
        value as u8
    }
}

/// Writes the `count` characters from bit `first` on to the front.
fn put_characters(bytes: &mut [u8; 20], bits: &BitSlice<'_>, first: usize, count: usize)
    requires few { count ≤ 20 }
    requires within { first + 6 * count ≤ length bits.now }
    ensures { take count bytes.new ≡ characters_at bits.now first count }
{
    let _bits = bits.len();
    for k in 0..count {
        bytes[k] = character(bits.unsigned(first + 6 * k, 6));
    }
}

/// Returns the length of the text without the spaces at its end.
fn trimmed_len(text: &[u8]) -> usize
    ensures within { result ≤ length text.now }
    ensures trimmed { take result text.now ≡ trimmed text.now }
{
    let mut len = 0;
    for (k, byte) in text.iter().enumerate() {
        if *byte != b' ' {
            len = k + 1;
        }
    }
    len
}

/// Returns the index of the first `@`.
fn at_sign(text: &[u8]) -> Option<usize>
    ensures { result ≡ position (λ character. character == 64) text.now }
{
    text.iter().position(|byte| *byte == b'@')
}

/// Returns the index of the first `@`, or the length if there is none.
fn end_of(text: &[u8]) -> usize
    ensures within { result ≤ length text.now }
    ensures before { take result text.now ≡ before_at text.now }
{
    at_sign(text).unwrap_or(text.len())
}

/// Returns the text of `count` characters of six bits each, from bit `first` on, counted from 0. The first `@` ends it,
/// without the spaces at its end (ITU-R M.1371-5, annex 8, table 47).
pub fn text6(bits: &Bits, first: usize, count: usize) -> Text20
    requires few { count ≤ 20 }
    requires within { first + 6 * count ≤ length bits.now }
    ensures { result ≡ text_at bits.now first count }
{
    text_in(&bits.as_slice(), first, count)
}

/// Returns the same from a slice of bits.
#[tactic(auto, unfolding(crate::specs::SixBitText::text_at))]
pub(crate) fn text_in(bits: &BitSlice<'_>, first: usize, count: usize) -> Text20
    requires few { count ≤ 20 }
    requires within { first + 6 * count ≤ length bits.now }
    ensures { result ≡ text_at bits.now first count }
{
    let mut bytes = [b' '; 20];
    put_characters(&mut bytes, bits, first, count);
    let end = end_of(&bytes[..count]);
    let len = trimmed_len(&bytes[..end]);
    Text20 { bytes, len }
}
