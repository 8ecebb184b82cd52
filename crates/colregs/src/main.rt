//! The program: calls `run` with the arguments, the files and the standard streams of the runtime.
#![tactic(auto)]

use colregs_program::{Status, run};
use command_line::{InfoRequest, info_request, info_text};
use out_of_memory::Memory;
use outside::{FileShelf, StdSink, StdSource, Word, put_all};
use std::alloc::AllocError;
use std::process::ExitCode;
use std::{env, io};
use thiserror::Error;

/// The exit status if the runtime cannot provide the arguments. `run` never returns it.
const NO_WORDS: u8 = 20;

/// Why the arguments are not available.
#[derive(Debug, Drop, Error)]
enum WordsFault {
    #[error("cannot read the command-line arguments: {0}")]
    Runtime(#[from] io::Error),
    #[error("out of memory while reading the command-line arguments")]
    Memory,
}

impl From<AllocError> for WordsFault {
    fn from(_: AllocError) -> WordsFault {
        WordsFault::Memory
    }
}

impl From<Memory> for WordsFault {
    fn from(_: Memory) -> WordsFault {
        WordsFault::Memory
    }
}

/// Returns the arguments after the program's name.
fn words(rt: &HostRuntime) -> Result<Vec<Word>, WordsFault> {
    let mut words = Vec::new(rt.alloc());
    for word in env::args(rt)?.skip(1) {
        let word = Word::new(rt.alloc(), word.as_str())?;
        if words.push(word).is_err() {
            return Err(WordsFault::Memory);
        }
    }
    Ok(words)
}

/// Writes the help text or the version to standard output.
fn write_info(rt: &HostRuntime, request: InfoRequest) -> Status {
    let Ok(text) = info_text(rt.alloc(), request) else {
        let _ = eprintln!(rt; "memory");
        return Status::Memory;
    };
    if !put_all(&mut StdSink::new(rt.stdout()), text.as_bytes()) {
        let _ = eprintln!(rt; "report: not written");
        return Status::WriteFault;
    }
    Status::Done
}

fn main(rt: HostRuntime) -> ExitCode {
    let words = match words(&rt) {
        Ok(words) => words,
        Err(fault) => {
            let _ = eprintln!(&rt; "{fault}");
            return ExitCode::from(NO_WORDS);
        }
    };
    if let Some(request) = info_request(words.as_slice()) {
        return ExitCode::from(write_info(&rt, request).number());
    }
    let Ok(files) = rt.clone() else {
        return ExitCode::from(Status::Memory.number());
    };
    let mut shelf = FileShelf::new(files);
    let mut log = StdSource::new(rt.stdin());
    let mut out = StdSink::new(rt.stdout());
    let mut err = StdSink::new(rt.stderr());
    let status = run(
        rt.alloc(),
        words.as_slice(),
        &mut shelf,
        &mut log,
        &mut out,
        &mut err,
    );
    ExitCode::from(status.number())
}
