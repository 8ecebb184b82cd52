//! From messages to sentences.
ghost use Rattle.std.specs.Prelude.{◌≡◌, ◌+◌, ◌-◌, ◌*◌, ◌^◌, ◌<◌, ◌≤◌, ◌++◌, ◌∷◌, [], codes, drop, length, string_bytes, IfOk, IfSome, IsTrue, OnOk};
ghost use Rattle.std.specs.Char.{is_ascii_uppercase};
ghost use Rattle.std.specs.Fmt.{decimal};
ghost use Rattle.aivdm.specs.Checksums.{sum_of};
ghost use Rattle.aivdm.specs.SentenceWriting.{fill_of, hexadecimal_digit, line_of, sentence_content, sum_text, tag_text, IsWritten};
ghost use Rattle.aivdm.specs.Armouring.{armour_of, payload_of};

use crate::bits::Bits;
use crate::checksum::sum_of;
use out_of_memory::Memory;
use std::alloc::Global;

/// Writes a message as a line: a tag block with only `c:` if there is a stamp, in seconds since the Unix epoch, and one
/// `!AIVDM` sentence of total 1 without sequential identifier. Hexadecimal digits are capitals, fill bits are zero, and
/// there is no line end.
pub fn write_sentence(
    alloc: Global,
    stamp: Option<u64>,
    bits: &Bits,
    channel: u8,
) -> Result<Vec<u8>, Memory>
    requires some { 1 ≤ length bits.now }
    requires most { length bits.now ≤ 360 }
    requires letter { IsTrue (is_ascii_uppercase channel) }
    requires seconds { IfSome stamp (λ time. time < 100_000_000_000) }
    ensures bytes { IfOk result (λ line. line.items ≡ line_of stamp bits.now channel) }
    ensures written { IfOk result (λ line. IsWritten stamp bits.now channel line.items) }
{
    write_line(alloc, stamp, bits, channel)
}

/// Writes the line.
fn write_line(
    alloc: Global,
    stamp: Option<u64>,
    bits: &Bits,
    channel: u8,
) -> Result<Vec<u8>, Memory>
    ensures { IfOk result (λ line. line.items ≡ line_of stamp bits.now channel) }
{
    let mut line = tag_block(alloc, stamp)?;
    let content = sentence_content(alloc, bits, channel)?;
    push(&mut line, b"!")?;
    push(&mut line, content.as_slice())?;
    push_sum(&mut line, content.as_slice())?;
    Ok(line)
}

/// Returns a tag block with only a time, or nothing.
fn tag_block(alloc: Global, stamp: Option<u64>) -> Result<Vec<u8>, Memory>
    ensures { IfOk result (λ tag. tag.items ≡ tag_text stamp) }
{
    let mut tag = Vec::new(alloc);
    let Some(time) = stamp else {
        return Ok(tag);
    };
    let content = time_field(alloc, time)?;
    push(&mut tag, b"\\")?;
    push(&mut tag, content.as_bytes())?;
    push_sum(&mut tag, content.as_bytes())?;
    push(&mut tag, b"\\")?;
    Ok(tag)
}

/// Returns the field that holds a time.
fn time_field(alloc: Global, time: u64) -> Result<String, Memory>
    ensures { IfOk result (λ field. string_bytes field ≡ codes "c:" ++ decimal time) }
{
    match format!(in alloc; "c:{time}") {
        Ok(field) => Ok(field),
        Err(_) => Err(Memory),
    }
}

/// Returns the bytes between `!` and `*`.
fn sentence_content(alloc: Global, bits: &Bits, channel: u8) -> Result<Vec<u8>, Memory>
    ensures { IfOk result
        (λ content. content.items
        ≡ sentence_content channel (payload_of bits.now) (fill_of bits.now)) }
{
    let mut content = Vec::new(alloc);
    push(&mut content, b"AIVDM,1,1,,")?;
    push(&mut content, &[channel, b','])?;
    push_payload(&mut content, bits)?;
    let fill = ((6 - bits.len() % 6) % 6) as u8;
    push(&mut content, &[b',', b'0' + fill])?;
    Ok(content)
}

/// Appends the bytes that stand for the bits.
fn push_payload(line: &mut Vec<u8>, bits: &Bits) -> Result<(), Memory>
    ensures { OnOk result (line.new.items ≡ line.old.items ++ payload_of bits.now) }
{
    let whole = bits.len() / 6;
    for place in 0..whole {
        push(line, &[armour(bits.unsigned(6 * place, 6) as u8)])?;
    }
    push_rest(line, bits, 6 * whole)
}

/// Appends the byte for fewer than six bits, filled up with zeros.
fn push_rest(line: &mut Vec<u8>, bits: &Bits, first: usize) -> Result<(), Memory>
    requires within { first ≤ length bits.now }
    requires few { length bits.now < first + 6 }
    ensures { OnOk result (line.new.items ≡ line.old.items ++ payload_of (drop first bits.now)) }
{
    let rest = (bits.len() - first) as u32;
    if rest == 0 {
        return Ok(());
    }
    let number = bits.unsigned(first, rest);
    push(line, &[armour(with_zeros(number, rest))])
}

/// Returns the sextet that begins with the bits of a number.
fn with_zeros(number: u32, width: u32) -> u8
    requires few { width ≤ 6 }
    requires fits { number < 2 ^ width }
    ensures value { result ≡ number * 2 ^ (6 - width) }
    ensures bound { result < 64 }
{
    (number << (6 - width)) as u8
}

/// Returns the byte that stands for six bits.
fn armour(sextet: u8) -> u8
    requires { sextet < 64 }
    ensures { result ≡ armour_of sextet }
{
    if sextet < 40 {
        48 + sextet
    } else {
        56 + sextet
    }
}

/// Appends `*` and the checksum of the content.
fn push_sum(line: &mut Vec<u8>, content: &[u8]) -> Result<(), Memory>
    ensures { OnOk result (line.new.items ≡ line.old.items ++ sum_text content.now) }
{
    let sum = sum_of(content);
    push(
        line,
        &[
            b'*',
            hexadecimal_digit(sum / 16),
            hexadecimal_digit(sum % 16),
        ],
    )
}

/// Returns a hexadecimal digit, in capitals.
fn hexadecimal_digit(value: u8) -> u8
    requires { value < 16 }
    ensures { result ≡ hexadecimal_digit value }
{
    if value < 10 { 48 + value } else { 55 + value }
}

/// Appends bytes.
fn push(line: &mut Vec<u8>, bytes: &[u8]) -> Result<(), Memory>
    ensures { OnOk result (line.new.items ≡ line.old.items ++ bytes.now) }
{
    match line.extend_from_slice(bytes) {
        Ok(()) => Ok(()),
        Err(_) => Err(Memory),
    }
}
