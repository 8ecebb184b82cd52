//! A run of the program in memory. It is a separate module, so that only one place calls `run`.
ghost use Rattle.std.specs.Prelude.{IfOk};
ghost use Rattle.outside.specs.Calls.{AreCallNumbers};

use colregs_program::{Status, run};
use outside::{MemorySink, MemorySource, PlainShelf, Source, Taken, Word};
use scenario_rows::SCENARIO;
use std::alloc::Global;
use std::test::Fail;

/// A part of the scenario, and its replacement.
pub type Edit = (&'static str, &'static str);

/// The chunks of the log, and the call of each device that fails, counted from 0.
#[derive(Clone, Copy)]
pub struct Devices {
    /// The most bytes of a read.
    pub piece: usize,
    pub failing_read: Option<u32>,
    pub failing_write: Option<u32>,
    /// Of standard error.
    pub failing_line: Option<u32>,
}

/// Devices that do not fail.
pub const SOUND: Devices = Devices {
    piece: 64,
    failing_read: None,
    failing_write: None,
    failing_line: None,
};

/// The end of a run, its output, and the result of a read after it.
#[derive(Drop)]
pub struct RunEnd {
    pub status: Status,
    pub out: MemorySink,
    pub err: MemorySink,
    pub next: Taken,
}

/// Returns the numbers of the failing calls, given at most one.
fn calls(alloc: Global, failing: Option<u32>) -> Result<Vec<u64>, Fail>
    ensures { IfOk result (λ calls. AreCallNumbers calls.items) }
{
    match failing {
        Some(call) => Ok(vec![in alloc; u64::from(call)]?),
        None => Ok(Vec::new(alloc)),
    }
}

fn words_of(alloc: Global, texts: &[&str]) -> Result<Vec<Word>, Fail> {
    let mut words = Vec::new(alloc);
    for text in texts {
        words.push(Word::new(alloc, text)?)?;
    }
    Ok(words)
}

/// The files of a shelf: a scenario under `scenario.toml`, and rows under `why.csv`, if there are any.
#[derive(Clone, Copy)]
pub struct Shelved<'a> {
    pub scenario: &'a str,
    pub rows: Option<&'a [u8]>,
}

fn shelf_of(alloc: Global, shelved: Shelved<'_>) -> Result<PlainShelf, Fail> {
    let name = Word::new(alloc, "scenario.toml")?;
    let file = (name, shelved.scenario.as_bytes().to_vec(alloc)?);
    let mut files = vec![in alloc; file]?;
    if let Some(rows) = shelved.rows {
        let name = Word::new(alloc, "why.csv")?;
        files.push((name, rows.to_vec(alloc)?))?;
    }
    Ok(PlainShelf::new(files))
}

/// Runs the program with these arguments on a log; the file `scenario.toml` is this scenario.
pub fn ended(
    alloc: Global,
    texts: &[&str],
    scenario: &str,
    log: &[u8],
    devices: Devices,
) -> Result<RunEnd, Fail> {
    let shelved = Shelved {
        scenario,
        rows: None,
    };
    ended_on(alloc, texts, shelved, log, devices)
}

/// Runs the program with these arguments and this shelf, on a log.
pub fn ended_on(
    alloc: Global,
    texts: &[&str],
    shelved: Shelved<'_>,
    log: &[u8],
    devices: Devices,
) -> Result<RunEnd, Fail> {
    let words = words_of(alloc, texts)?;
    let mut shelf = shelf_of(alloc, shelved)?;
    let reads = calls(alloc, devices.failing_read)?;
    let mut source = MemorySource::new(log.to_vec(alloc)?, devices.piece.max(1), reads);
    let mut out = MemorySink::new(alloc, 100, calls(alloc, devices.failing_write)?);
    let mut err = MemorySink::new(alloc, 100, calls(alloc, devices.failing_line)?);
    let words = words.as_slice();
    let status = run(alloc, words, &mut shelf, &mut source, &mut out, &mut err);
    let mut room = [0u8; 100];
    let next = source.read(&mut room);
    Ok(RunEnd {
        status,
        out,
        err,
        next,
    })
}

/// Returns the scenario of the worked rows with these parts replaced.
pub fn edited(alloc: Global, edits: &[Edit]) -> Result<String, Fail> {
    let mut text = SCENARIO.to_owned(alloc)?;
    for (old, new) in edits {
        text = text.as_str().replace(alloc, old, new)?;
    }
    Ok(text)
}

/// Runs the program with these arguments on a log; the file `scenario.toml` is the scenario of the worked rows with
/// these parts replaced.
pub fn ended_with(
    alloc: Global,
    texts: &[&str],
    edits: &[Edit],
    log: &[u8],
    devices: Devices,
) -> Result<RunEnd, Fail> {
    let scenario = edited(alloc, edits)?;
    ended(alloc, texts, scenario.as_str(), log, devices)
}
