//! A worked row: the input of a run, and its end.
use crate::whole_run::{Devices, Edit, RunEnd, SOUND, Shelved, edited, ended_on};
use colregs_program::Status;
use std::alloc::Global;
use std::test::Fail;

/// The expected bytes of a report.
#[derive(Clone, Copy)]
pub enum Written {
    /// All of them.
    All(&'static [u8]),
    /// Their start and their end.
    Ends(&'static [u8], &'static [u8]),
}

/// A run of the program, on the scenario of all rows with some edits, and its end.
#[derive(Clone, Copy)]
pub struct Row {
    /// The title of the row, which a failure prints.
    pub shows: &'static str,
    pub words: &'static [&'static str],
    pub edits: &'static [Edit],
    /// The log, part by part.
    pub log: &'static [&'static [u8]],
    /// The rows in the file `why.csv`, if there is one.
    pub rows: Option<&'static [u8]>,
    /// The read of the log that fails, counted from 0.
    pub failing_read: Option<u32>,
    /// The end of the run, with its number, and its output.
    pub status: Status,
    pub number: u8,
    pub out: Written,
    pub err: &'static [u8],
}

/// The arguments for the points of the scenario's log.
pub const POINTS: &[&str] = &["points", "scenario.toml"];

/// The arguments for its audit.
pub const AUDIT: &[&str] = &["audit", "scenario.toml"];

/// `points` on an empty log that no device fails, with nothing written.
pub const NOTHING: Row = Row {
    shows: "",
    words: POINTS,
    edits: &[],
    log: &[],
    rows: None,
    failing_read: None,
    status: Status::Done,
    number: 0,
    out: Written::All(b""),
    err: b"",
};

fn is_written(bytes: &[u8], written: &Written) -> bool {
    match written {
        Written::All(all) => bytes == *all,
        Written::Ends(first, last) => bytes.starts_with(first) && bytes.ends_with(last),
    }
}

fn joined(alloc: Global, parts: &[&[u8]]) -> Result<Vec<u8>, Fail> {
    let mut bytes = Vec::new(alloc);
    for part in parts {
        bytes.extend_from_slice(part)?;
    }
    Ok(bytes)
}

/// Returns a failure that names the difference between a row's run and its worked end.
fn unlike(row: &Row, what: &str) -> Fail {
    Fail::new(format_args!("{}: {what}", row.shows))
}

/// Checks that a run ended like the row. Prints a difference with the row's title.
fn is_like(ended: &RunEnd, row: &Row) -> Result<(), Fail> {
    if ended.status != row.status || ended.status.number() != row.number {
        return Err(Fail::new(format_args!("{}: ended with {:?}", row.shows, ended.status)));
    }
    if !is_written(ended.out.bytes(), &row.out) {
        return Err(unlike(row, "another report"));
    }
    if ended.err.bytes() != row.err {
        return Err(unlike(row, "another line on standard error"));
    }
    Ok(())
}

/// Runs the program with the row's input, and compares its end.
pub fn is_as_worked_out(alloc: Global, row: &Row) -> Result<(), Fail> {
    let scenario = edited(alloc, row.edits)?;
    let log = joined(alloc, row.log)?;
    let devices = Devices {
        failing_read: row.failing_read,
        ..SOUND
    };
    let shelved = Shelved {
        scenario: scenario.as_str(),
        rows: row.rows,
    };
    let ended = ended_on(alloc, row.words, shelved, log.as_slice(), devices)?;
    is_like(&ended, row)
}
