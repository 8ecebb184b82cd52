//! Reads a line's bytes.
ghost use Rattle.std.specs.Prelude.{◌≡◌, ◌+◌, ◌≤◌, length};
ghost use Rattle.aivdm.specs.Inner.LineCuts.{sentence_at, summed_in};
ghost use Rattle.aivdm.specs.Inner.Seen.{sentence_seen};
ghost use Rattle.aivdm.specs.LineReading.{IsReading};
ghost use Rattle.aivdm.specs.ReadingOf.{dropped, reading_of};
ghost use Rattle.aivdm.specs.Sentences.{body_seen, fields_seen, reading_seen, IfSentence, IsPart, IsSentence};

use crate::armour::is_armoured;
use crate::checksum::sum_of;
use crate::fields::{behind_address, read_fields};
use crate::sentence::{Body, LineCause, Reading, Sentence};
use crate::tag_block::without_tag;

/// The most bytes of a line that is read, without its line end.
const LONGEST_LINE: usize = 1024;

/// Reads a line, without its line end: its tag block (NMEA 0183 4.10), if it has one, and the VDM or VDO sentence (IEC
/// 61162-1:2010) after it. The payload borrows from the line; this takes no memory.
///
/// If the line is not such a sentence, the reading has the first cause that applies, in the order of [`LineCause`]. It
/// still has the stamp of the tag block, unless the line is empty or too long, or the tag block itself is wrong.
#[inline(always)]
pub fn read_line(line: &[u8]) -> Reading<'_>
    ensures one { IsReading line.now (reading_seen result) }
    ensures same { reading_seen result ≡ reading_of line.now }
    ensures sentence { IfSentence result.body (λ s. IsSentence (fields_seen s)) }
    ensures part { IfSentence result.body (λ s. IsPart s.payload.now line.now) }
{
    read(line)
}

/// Reads a line.
#[inline(always)]
#[tactic(auto, unfolding(crate::specs::ReadingOf::reading_of))]
fn read(line: &[u8]) -> Reading<'_>
    ensures { reading_seen result ≡ reading_of line.now }
{
    if line.is_empty() {
        return dropped(LineCause::Empty);
    }
    if line.len() > LONGEST_LINE {
        return dropped(LineCause::Long);
    }
    match without_tag(line) {
        Ok(tagged) => Reading {
            stamp: tagged.stamp,
            body: body(tagged.rest),
        },
        Err(cause) => dropped(cause),
    }
}

/// Returns the reading of a dropped line without a stamp.
fn dropped<'a>(cause: LineCause) -> Reading<'a>
    ensures { reading_seen result ≡ dropped cause }
{
    Reading {
        stamp: None,
        body: Body::Dropped(cause),
    }
}

/// Reads what follows the tag block.
#[inline(always)]
fn body(bytes: &[u8]) -> Body<'_>
    ensures { body_seen result ≡ sentence_at bytes.now }
{
    match sentence(bytes) {
        Ok(sentence) => Body::Sentence(sentence),
        Err(cause) => Body::Dropped(cause),
    }
}

/// Returns the sentence after the tag block.
#[inline(always)]
#[tactic(auto, unfolding(crate::specs::Inner::LineCuts::sentence_at))]
fn sentence(bytes: &[u8]) -> Result<Sentence<'_>, LineCause>
    ensures { sentence_seen result ≡ sentence_at bytes.now }
{
    let rest = behind_address(bytes)?;
    let fields = read_fields(rest)?;
    if fields.told != sum_of(summed(bytes, fields.suffix.len())) {
        return Err(LineCause::Sum);
    }
    if !is_armoured(fields.sentence.payload) {
        return Err(LineCause::Armour);
    }
    Ok(fields.sentence)
}

/// Returns the bytes between the first byte of a sentence and the `*`, given the length of the suffix after the two
/// digits.
#[inline(always)]
fn summed(bytes: &[u8], suffix: usize) -> &[u8]
    requires { suffix + 4 ≤ length bytes.now }
    ensures { result.now ≡ summed_in bytes.now suffix }
{
    &bytes[1..bytes.len() - suffix - 3]
}
