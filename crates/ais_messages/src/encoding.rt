//! From position reports to bits.
ghost use Rattle.std.specs.Prelude.{◌≡◌, ◌==◌, ◌<◌, ◌≤◌, ◌-◌, ◌^◌, IfOk, length, unsigned_abs, unwrap_or};
ghost use Rattle.ais_messages.specs.MessageFields.{decoded_of, IsReport};
ghost use Rattle.ais_messages.specs.PositionWriting.{bits_written, class_a_fields, class_b_fields, code_of, encoded_of, latitude_code, longitude_code, AllFit, IfPlace, IsWritable};
ghost use Rattle.ais_messages.specs.declared.message.Message.TheVariants.{Position};
ghost use Rattle.ais_messages.specs.declared.message.Decoded.TheVariants as decoded;

use crate::message::PositionReport;
use aivdm::Bits;
use out_of_memory::Memory;
use std::alloc::Global;

/// Writes a position report of kind 1, 2, 3 or 18 as the 168 bits of its message (ITU-R M.1371-5, annex 8, tables 48
/// and 70), which decode to the report. An absent field, and the rate of turn, has its value for "not available";
/// fields that are not in a report are 0.
pub fn encode_position(alloc: Global, report: &PositionReport) -> Result<Bits, Memory>
    requires ranges { IsReport report.now }
    requires kind { IsWritable report.now }
    ensures bits { IfOk result (λ bits. bits ≡ encoded_of report.now) }
    ensures length { IfOk result (λ bits. length bits ≡ 168) }
    ensures decodes { IfOk result
        (λ bits. decoded_of bits ≡ decoded.Message (Position report.now)) }
{
    if report.kind == 18 {
        class_b(alloc, report)
    } else {
        class_a(alloc, report)
    }
}

/// Returns the bits of these fields, each with its width.
fn write_fields(alloc: Global, fields: &[(u32, u32)]) -> Result<Bits, Memory>
    requires { AllFit fields.now }
    ensures { IfOk result (λ bits. bits ≡ bits_written fields.now) }
{
    let mut bits = Bits::new(alloc);
    for (width, value) in fields {
        bits.append(*value, *width)?;
    }
    Ok(bits)
}

/// Returns the fields of messages 1, 2 and 3.
#[tactic(auto, unfolding(crate::specs::PositionWriting::class_a_fields))]
fn class_a(alloc: Global, report: &PositionReport) -> Result<Bits, Memory>
    requires ranges { IsReport report.now }
    requires kind { report.now.kind < 64 }
    ensures { IfOk result (λ bits. bits ≡ bits_written (class_a_fields report.now)) }
{
    let fields = [
        (6, u32::from(report.kind)),
        (2, 0),
        (30, report.mmsi),
        (4, u32::from(report.status)),
        (8, 128),
        (10, or_absent(report.sog, 1023)),
        (1, 0),
        (28, longitude(report.place)),
        (27, latitude(report.place)),
        (12, or_absent(report.cog, 3600)),
        (9, or_absent(report.heading, 511)),
        (6, u32::from(report.second)),
        (2, 0),
        (3, 0),
        (1, 0),
        (19, 0),
    ];
    write_fields(alloc, &fields)
}

/// Returns the fields of message 18.
#[tactic(auto, unfolding(crate::specs::PositionWriting::class_b_fields))]
fn class_b(alloc: Global, report: &PositionReport) -> Result<Bits, Memory>
    requires ranges { IsReport report.now }
    requires kind { report.now.kind < 64 }
    ensures { IfOk result (λ bits. bits ≡ bits_written (class_b_fields report.now)) }
{
    let fields = [
        (6, u32::from(report.kind)),
        (2, 0),
        (30, report.mmsi),
        (8, 0),
        (10, or_absent(report.sog, 1023)),
        (1, 0),
        (28, longitude(report.place)),
        (27, latitude(report.place)),
        (12, or_absent(report.cog, 3600)),
        (9, or_absent(report.heading, 511)),
        (6, u32::from(report.second)),
        (29, 0),
    ];
    write_fields(alloc, &fields)
}

/// Returns the value, or the one for "not available".
fn or_absent(value: Option<u16>, absent: u16) -> u32
    ensures { result ≡ unwrap_or value absent }
{
    u32::from(value.unwrap_or(absent))
}

/// Returns a number in two's complement of this many bits.
fn code(value: i32, width: u32) -> u32
    requires some { 1 ≤ width }
    requires few { width ≤ 31 }
    requires small { unsigned_abs value ≤ 2 ^ (width - 1) - 1 }
    ensures code { result ≡ code_of width value }
    ensures fits { result < 2 ^ width }
{
    if value < 0 {
        (1 << width) - value.unsigned_abs()
    } else {
        value.unsigned_abs()
    }
}

fn latitude(place: Option<(i32, i32)>) -> u32
    requires { IfPlace place }
    ensures code { result ≡ latitude_code place }
    ensures fits { result < 2 ^ 27 }
{
    match place {
        Some((latitude, _)) => code(latitude, 27),
        None => 54_600_000,
    }
}

fn longitude(place: Option<(i32, i32)>) -> u32
    requires { IfPlace place }
    ensures code { result ≡ longitude_code place }
    ensures fits { result < 2 ^ 28 }
{
    match place {
        Some((_, longitude)) => code(longitude, 28),
        None => 108_600_000,
    }
}
