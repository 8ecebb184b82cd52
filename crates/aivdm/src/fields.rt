//! The fields of a VDM or VDO sentence.
ghost use Rattle.std.specs.Prelude.{◌≡◌};
ghost use Rattle.aivdm.specs.Inner.LineCuts.{address_at, count_at, cut_at, end_at, is_suffix, is_talker_byte, kind_at, digit_at, letter_at};
ghost use Rattle.aivdm.specs.Inner.Seen.{behind_seen, count_seen, cut_seen, optional_seen};

use crate::checksum::hexadecimal;
use crate::search::cut;
use crate::sentence::{LineCause, Sentence};

/// A sentence's fields, its checksum, and what follows the checksum.
#[derive(Clone, Copy)]
pub(crate) struct Fields<'a> {
    pub(crate) sentence: Sentence<'a>,
    pub(crate) told: u8,
    pub(crate) suffix: &'a [u8],
}

/// Returns what follows the first comma of a VDM or VDO sentence.
#[inline(always)]
#[tactic(auto, unfolding(crate::specs::Inner::LineCuts::address_at))]
pub(crate) fn behind_address(bytes: &[u8]) -> Result<&[u8], LineCause>
    ensures { behind_seen result ≡ address_at bytes.now }
{
    match bytes {
        [b'!', a, b, rest @ ..] if is_talker_byte(*a) && is_talker_byte(*b) => behind_kind(rest),
        _ => Err(LineCause::Other),
    }
}

/// Reads a capital letter or digit.
#[inline(always)]
fn is_talker_byte(byte: u8) -> bool
    ensures { result ≡ is_talker_byte byte }
{
    byte.is_ascii_uppercase() || byte.is_ascii_digit()
}

/// Returns what follows `VDM,` or `VDO,`.
#[inline(always)]
#[tactic(auto, unfolding(crate::specs::Inner::LineCuts::kind_at))]
fn behind_kind(bytes: &[u8]) -> Result<&[u8], LineCause>
    ensures { behind_seen result ≡ kind_at bytes.now }
{
    match bytes {
        [b'V', b'D', b'M' | b'O', b',', rest @ ..] => Ok(rest),
        _ => Err(LineCause::Other),
    }
}

/// Reads the fields after the address.
#[inline(always)]
#[tactic(auto, unfolding(crate::specs::Inner::LineCuts::cut_at))]
pub(crate) fn read_fields(bytes: &[u8]) -> Result<Fields<'_>, LineCause>
    ensures { cut_seen result ≡ cut_at bytes.now }
{
    let (total, number, rest) = read_counts(bytes)?;
    let (seq, rest) = read_digit(rest)?;
    let (channel, rest) = read_letter(rest)?;
    let (payload, rest) = cut(b',', rest);
    let (fill, told, suffix) = read_end(rest)?;
    if payload.is_empty() {
        return Err(LineCause::Form);
    }
    Ok(Fields {
        sentence: Sentence {
            total,
            number,
            seq,
            channel,
            payload,
            fill,
        },
        told,
        suffix,
    })
}

/// Reads the total and the number.
#[inline(always)]
#[tactic(auto, unfolding(crate::specs::Inner::LineCuts::count_at))]
fn read_counts(bytes: &[u8]) -> Result<(u8, u8, &[u8]), LineCause>
    ensures { count_seen result ≡ count_at bytes.now }
{
    match bytes {
        [
            total @ b'1'..=b'9',
            b',',
            number @ b'1'..=b'9',
            b',',
            rest @ ..,
        ] if *number <= *total => Ok((*total - b'0', *number - b'0', rest)),
        _ => Err(LineCause::Form),
    }
}

/// Reads an optional digit before a comma.
#[inline(always)]
#[tactic(auto, unfolding(crate::specs::Inner::LineCuts::digit_at))]
fn read_digit(bytes: &[u8]) -> Result<(Option<u8>, &[u8]), LineCause>
    ensures { optional_seen result ≡ digit_at bytes.now }
{
    match bytes {
        [b',', rest @ ..] => Ok((None, rest)),
        [digit @ b'0'..=b'9', b',', rest @ ..] => Ok((Some(*digit - b'0'), rest)),
        _ => Err(LineCause::Form),
    }
}

/// Reads an optional letter or digit before a comma.
#[inline(always)]
#[tactic(auto, unfolding(crate::specs::Inner::LineCuts::letter_at))]
fn read_letter(bytes: &[u8]) -> Result<(Option<u8>, &[u8]), LineCause>
    ensures { optional_seen result ≡ letter_at bytes.now }
{
    match bytes {
        [b',', rest @ ..] => Ok((None, rest)),
        [letter, b',', rest @ ..] if letter.is_ascii_alphanumeric() => Ok((Some(*letter), rest)),
        _ => Err(LineCause::Form),
    }
}

/// Reads the fill, the checksum, and what follows it.
#[inline(always)]
#[tactic(auto, unfolding(crate::specs::Inner::LineCuts::end_at))]
fn read_end(bytes: &[u8]) -> Result<(u8, u8, &[u8]), LineCause>
    ensures { count_seen result ≡ end_at bytes.now }
{
    match bytes {
        [fill @ b'0'..=b'5', b'*', high, low, suffix @ ..] if is_suffix(suffix) => {
            match hexadecimal(*high, *low) {
                Some(told) => Ok((*fill - b'0', told, suffix)),
                None => Err(LineCause::Form),
            }
        }
        _ => Err(LineCause::Form),
    }
}

/// Checks for nothing, or for a comma, a space or a tab and anything after it.
#[inline(always)]
fn is_suffix(bytes: &[u8]) -> bool
    ensures { result ≡ is_suffix bytes.now }
{
    matches!(bytes, [] | [b',' | b' ' | b'\t', ..])
}
