//! The text of a report, row after row.
ghost use Rattle.std.specs.Prelude.{◌≡◌, IfOk};
ghost use Rattle.std.specs.Option.{option_copied};
ghost use Rattle.audit_report.specs.ReportRows.{kind_name, optional_name, report_row_text, verdict_name};

use crate::report_row::ReportRow;
use ais_messages::Text20;
use auditor::Total;
use csv::{Writer, WriterBuilder};
use fixed_geometry::Point;
use itoa::Buffer;
use log_lines::LineOutcome;
use meetings::Pair;
use out_of_memory::Memory;
use report_csv::{digits, optional_digits, short_digits, signed_digits};
use sectors::Class;
use std::alloc::Global;

/// Returns the name of a kind of encounter: that of its atom.
fn kind_name(kind: Class) -> &'static str
    ensures { result.now ≡ kind_name kind }
{
    match kind {
        Class::Overtaking => "overtaking",
        Class::Overtaken => "overtaken",
        Class::HeadOn => "head_on",
        Class::CrossingGives => "crossing_gives",
        Class::CrossingStands => "crossing_stands",
        Class::Passing => "passing",
        Class::Unclassified => "unclassified",
    }
}

/// Returns the name of a kind of stretch of a rule. The caller chooses the lifetime, because a row has this name next
/// to borrowed ones.
fn verdict_name<'a>(undecided: bool) -> &'a str
    ensures { result.now ≡ verdict_name undecided }
{
    if undecided { "open" } else { "broken" }
}

/// Returns the bytes of a name, or no bytes without a name.
fn optional_name<'a>(name: Option<&'a Text20>) -> &'a [u8]
    ensures { result.now ≡ optional_name (option_copied name.entry) }
{
    match name {
        Some(name) => name.bytes(),
        None => b"",
    }
}

/// The text of the rows written so far. All rows share one buffer, so a row needs no memory of its own.
#[derive(Drop)]
pub struct ReportText {
    writer: Writer<Vec<u8>>,
}

impl ReportText {
    ghost use Rattle.std.specs.Prelude.{◌++◌, List, [], ℕ, OnOk, map};
    ghost use Rattle.report_csv.specs.CsvRows.{row_of};
    ghost use Rattle.audit_report.specs.ReportRows.{alarm_fields, count_fields, meeting_fields, no_plan_fields, plan_fields, point_fields, total_fields, verdict_fields, vessel_fields};
    ghost use Rattle.audit_report.specs.ReportTexts.{HasText};

    /// Returns an empty text. This takes no memory.
    pub fn new(alloc: Global) -> ReportText
        ensures { HasText result [] }
    {
        ReportText {
            writer: WriterBuilder::new().from_writer(Vec::new(alloc)),
        }
    }

    /// Writes a row of these fields. It fails only if memory runs out; then the caller may only drop the text.
    #[tactic(auto, unfolding(report_csv::specs::CsvRows::row_of))]
    #[inline(always)]
    pub fn write_fields(&mut self, fields: &[&[u8]]) -> Result<(), Memory>
        ensures { OnOk result ((text : List ℕ) → HasText self.old text
            → HasText self.new (text ++ row_of (map (λ field. field.now) fields.now))) }
    {
        match self.writer.write_fields(fields) {
            Ok(()) => Ok(()),
            Err(_) => Err(Memory),
        }
    }

    #[inline(always)]
    fn write_point(
        &mut self,
        mmsi: u32,
        time: u64,
        point: Point,
        speed: Option<u16>,
        course: Option<u16>,
    ) -> Result<(), Memory>
        ensures { OnOk result ((text : List ℕ) → HasText self.old text
            → HasText self.new (text ++ row_of (point_fields mmsi time point speed course))) }
    {
        let mut mmsi_digits = Buffer::new();
        let mut time_digits = Buffer::new();
        let mut x = Buffer::new();
        let mut y = Buffer::new();
        let mut speed_digits = Buffer::new();
        let mut course_digits = Buffer::new();
        self.write_fields(&[
            b"point",
            short_digits(&mut mmsi_digits, mmsi),
            digits(&mut time_digits, time),
            signed_digits(&mut x, point.x),
            signed_digits(&mut y, point.y),
            optional_digits(&mut speed_digits, speed),
            optional_digits(&mut course_digits, course),
        ])
    }

    fn write_meeting(
        &mut self,
        pair: Pair,
        kind: Class,
        first: u32,
        last: u32,
        least: u64,
    ) -> Result<(), Memory>
        ensures { OnOk result ((text : List ℕ) → HasText self.old text
            → HasText self.new (text ++ row_of (meeting_fields pair kind first last least))) }
    {
        let mut subject = Buffer::new();
        let mut other = Buffer::new();
        let mut first_digits = Buffer::new();
        let mut last_digits = Buffer::new();
        let mut least_digits = Buffer::new();
        self.write_fields(&[
            b"meeting",
            short_digits(&mut subject, pair.subject),
            short_digits(&mut other, pair.other),
            kind_name(kind).as_bytes(),
            short_digits(&mut first_digits, first),
            short_digits(&mut last_digits, last),
            digits(&mut least_digits, least),
        ])
    }

    fn write_verdict(
        &mut self,
        pair: Pair,
        name: &[u8],
        undecided: bool,
        first: u32,
        last: u32,
    ) -> Result<(), Memory>
        ensures { OnOk result
            ((text : List ℕ) → HasText self.old text
            → HasText self.new
            (text ++ row_of (verdict_fields pair name.now undecided first last))) }
    {
        let mut subject = Buffer::new();
        let mut other = Buffer::new();
        let mut first_digits = Buffer::new();
        let mut last_digits = Buffer::new();
        self.write_fields(&[
            b"verdict",
            short_digits(&mut subject, pair.subject),
            short_digits(&mut other, pair.other),
            name,
            verdict_name(undecided).as_bytes(),
            short_digits(&mut first_digits, first),
            short_digits(&mut last_digits, last),
        ])
    }

    fn write_alarm(
        &mut self,
        pair: Pair,
        name: &[u8],
        position: u32,
        decided: u32,
    ) -> Result<(), Memory>
        ensures { OnOk result ((text : List ℕ) → HasText self.old text
            → HasText self.new (text ++ row_of (alarm_fields pair name.now position decided))) }
    {
        let mut subject = Buffer::new();
        let mut other = Buffer::new();
        let mut position_digits = Buffer::new();
        let mut decided_digits = Buffer::new();
        self.write_fields(&[
            b"alarm",
            short_digits(&mut subject, pair.subject),
            short_digits(&mut other, pair.other),
            name,
            short_digits(&mut position_digits, position),
            short_digits(&mut decided_digits, decided),
            b"",
        ])
    }

    fn write_vessel(
        &mut self,
        mmsi: u32,
        name: Option<&Text20>,
        kind: u8,
        length: u32,
        reports: u64,
        legs: u64,
    ) -> Result<(), Memory>
        ensures { OnOk result
            ((text : List ℕ) → HasText self.old text
            → HasText self.new
            (text ++ row_of (vessel_fields mmsi
            (option_copied name.entry) kind length reports legs))) }
    {
        let mut mmsi_digits = Buffer::new();
        let mut kind_digits = Buffer::new();
        let mut length_digits = Buffer::new();
        let mut reports_digits = Buffer::new();
        let mut legs_digits = Buffer::new();
        self.write_fields(&[
            b"vessel",
            short_digits(&mut mmsi_digits, mmsi),
            optional_name(name),
            short_digits(&mut kind_digits, u32::from(kind)),
            short_digits(&mut length_digits, length),
            digits(&mut reports_digits, reports),
            digits(&mut legs_digits, legs),
        ])
    }

    fn write_total(&mut self, name: &[u8], total: &Total) -> Result<(), Memory>
        ensures { OnOk result ((text : List ℕ) → HasText self.old text
            → HasText self.new (text ++ row_of (total_fields name.now total.now))) }
    {
        let mut positions = Buffer::new();
        let mut yes = Buffer::new();
        let mut no = Buffer::new();
        let mut undecided = Buffer::new();
        let mut runs = Buffer::new();
        self.write_fields(&[
            b"total",
            name,
            digits(&mut positions, total.positions),
            digits(&mut yes, total.yes),
            digits(&mut no, total.no),
            digits(&mut undecided, total.undecided),
            digits(&mut runs, total.runs),
        ])
    }

    fn write_count(&mut self, outcome: LineOutcome, count: u64) -> Result<(), Memory>
        ensures { OnOk result ((text : List ℕ) → HasText self.old text
            → HasText self.new (text ++ row_of (count_fields outcome count))) }
    {
        let mut number = Buffer::new();
        self.write_fields(&[
            b"lines",
            outcome.name().as_bytes(),
            digits(&mut number, count),
            b"",
            b"",
            b"",
            b"",
        ])
    }

    fn write_plan(
        &mut self,
        number: u32,
        leg: u8,
        course: u16,
        speed: u16,
        first: u32,
        last: u32,
    ) -> Result<(), Memory>
        ensures { OnOk result ((text : List ℕ) → HasText self.old text
            → HasText self.new (text ++ row_of (plan_fields number leg course speed first last))) }
    {
        let mut number_digits = Buffer::new();
        let mut leg_digits = Buffer::new();
        let mut course_digits = Buffer::new();
        let mut speed_digits = Buffer::new();
        let mut first_digits = Buffer::new();
        let mut last_digits = Buffer::new();
        self.write_fields(&[
            b"plan",
            short_digits(&mut number_digits, number),
            short_digits(&mut leg_digits, u32::from(leg)),
            short_digits(&mut course_digits, u32::from(course)),
            short_digits(&mut speed_digits, u32::from(speed)),
            short_digits(&mut first_digits, first),
            short_digits(&mut last_digits, last),
        ])
    }

    fn write_no_plan(&mut self, plans: u32) -> Result<(), Memory>
        ensures { OnOk result ((text : List ℕ) → HasText self.old text
            → HasText self.new (text ++ row_of (no_plan_fields plans))) }
    {
        let mut number = Buffer::new();
        self.write_fields(&[
            b"none",
            short_digits(&mut number, plans),
            b"",
            b"",
            b"",
            b"",
            b"",
        ])
    }

    /// Appends a row. If memory runs out, the caller may only drop the text.
    #[inline(always)]
    pub fn write(&mut self, row: &ReportRow<'_>) -> Result<(), Memory>
        ensures { OnOk result
            ((text : List ℕ) → HasText self.old text
            → HasText self.new (text ++ report_row_text row.now)) }
    {
        match *row {
            ReportRow::Point {
                mmsi,
                time,
                point,
                speed,
                course,
            } => self.write_point(mmsi, time, point, speed, course),
            ReportRow::Meeting {
                pair,
                kind,
                first,
                last,
                least,
            } => self.write_meeting(pair, kind, first, last, least),
            ReportRow::Verdict {
                pair,
                name,
                undecided,
                first,
                last,
            } => self.write_verdict(pair, name, undecided, first, last),
            ReportRow::Alarm {
                pair,
                name,
                position,
                decided,
            } => self.write_alarm(pair, name, position, decided),
            ReportRow::Vessel {
                mmsi,
                name,
                kind,
                length,
                reports,
                legs,
            } => self.write_vessel(mmsi, name, kind, length, reports, legs),
            ReportRow::Total { name, ref total } => self.write_total(name, total),
            ReportRow::Lines { outcome, count } => self.write_count(outcome, count),
            ReportRow::Plan {
                number,
                leg,
                course,
                speed,
                first,
                last,
            } => self.write_plan(number, leg, course, speed, first, last),
            ReportRow::NoPlan { plans } => self.write_no_plan(plans),
        }
    }

    /// Returns the text of all rows.
    pub fn into_bytes(self) -> Result<Vec<u8>, Memory>
        ensures { IfOk result (λ bytes. (text : List ℕ) → HasText self text → bytes.items ≡ text) }
    {
        match self.writer.into_inner() {
            Ok(text) => Ok(text),
            Err(_) => Err(Memory),
        }
    }
}

/// Returns the text of one row, as CSV with a line feed.
pub fn row_bytes(alloc: Global, row: &ReportRow<'_>) -> Result<Vec<u8>, Memory>
    ensures { IfOk result (λ bytes. bytes.items ≡ report_row_text row.now) }
{
    let mut text = ReportText::new(alloc);
    text.write(row)?;
    text.into_bytes()
}
