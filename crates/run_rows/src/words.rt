//! Words that are accepted and words that are not, as a user writes them.
use command_line::{
    InfoRequest, Request, WindowOptions, WordsFault, info_request, info_text, request_of,
};
use out_of_memory::Memory;
use outside::Word;
use std::alloc::{AllocError, Global};
use std::test::Fail;
use tasks::Task;
use test_support::{is, is_true};

fn words(alloc: Global, texts: &[&str]) -> Result<Vec<Word>, Memory> {
    let mut words = Vec::new(alloc);
    for text in texts {
        words.push(Word::new(alloc, text)?)?;
    }
    Ok(words)
}

fn asked(alloc: Global, texts: &[&str]) -> Result<Request, WordsFault> {
    match words(alloc, texts) {
        Ok(words) => request_of(alloc, words.as_slice()),
        Err(Memory) => Err(WordsFault::Memory),
    }
}

/// What a request asks for, with the name of the rows as a text.
#[derive(Clone, Copy, PartialEq, Eq)]
enum Wanted {
    Migration,
    Points,
    Audit,
    Plan(bool),
    Drill(u32),
    Recheck(&'static str),
    Watch,
}

/// What replaces the scenario's own window.
type Window = (Option<u64>, Option<u32>);

const OWN: Window = (None, None);

/// Arguments, and what they ask for, with the name of the scenario and the options of its window.
type Asked = (&'static [&'static str], Wanted, &'static str, Window);

/// Whether the task is this.
fn is_task(task: &Task, wanted: Wanted) -> Result<(), Fail> {
    match task {
        Task::Points => is_true(wanted == Wanted::Points),
        Task::Audit => is_true(wanted == Wanted::Audit),
        Task::Plan { why } => is_true(wanted == Wanted::Plan(*why)),
        Task::Drill { seed } => is_true(wanted == Wanted::Drill(*seed)),
        Task::Recheck { rows } => match wanted {
            Wanted::Recheck(text) => is(rows.text(), text),
            _ => is_true(false),
        },
        Task::Watch => is_true(wanted == Wanted::Watch),
    }
}

/// Whether the options of the window are these.
fn is_window(options: WindowOptions, wanted: Window) -> Result<(), Fail> {
    is(options.start, wanted.0)?;
    is(options.ticks, wanted.1)
}

/// Whether the request is this.
fn is_request(request: &Request, row: &Asked) -> Result<(), Fail> {
    let (_, wanted, name, window) = row;
    match request {
        Request::Migration(found) => {
            is_true(*wanted == Wanted::Migration)?;
            is(found.text(), *name)
        }
        Request::Report(report) => {
            is_task(&report.task, *wanted)?;
            is(report.name.text(), *name)?;
            is_window(report.window, *window)
        }
    }
}

/// Whether the arguments of each row ask for what stands in it.
fn are_asked(alloc: Global, rows: &[Asked]) -> Result<(), Fail> {
    for row in rows {
        match asked(alloc, row.0) {
            Ok(request) => is_request(&request, row)?,
            Err(_) => is((row.2, false), (row.2, true))?,
        }
    }
    Ok(())
}

/// Whether the words of each row ask for nothing.
fn are_usage(alloc: Global, rows: &[&'static [&'static str]]) -> Result<(), Fail> {
    for texts in rows {
        is_true(matches!(asked(alloc, texts), Err(WordsFault::Usage)))?;
    }
    Ok(())
}

#[rattlefmt::skip]
static OF_EVERY_MODE: [Asked; 8] = [
    (&["points", "a.toml"], Wanted::Points, "a.toml", OWN),
    (&["audit", "a.toml"], Wanted::Audit, "a.toml", OWN),
    (&["plan", "a.toml"], Wanted::Plan(false), "a.toml", OWN),
    (&["drill", "a.toml"], Wanted::Drill(1), "a.toml", OWN),
    (&["migrate", "a.toml"], Wanted::Migration, "a.toml", OWN),
    (&["recheck", "a.toml"], Wanted::Recheck("why.csv"), "a.toml", OWN),
    (&["watch", "a.toml"], Wanted::Watch, "a.toml", OWN),
    (&["audit", ""], Wanted::Audit, "", OWN),
];

#[test]
fn two_words_of_every_mode(rt: HostRuntime) -> Result<(), Fail> {
    are_asked(rt.alloc(), &OF_EVERY_MODE)
}

const FOUR: Window = (None, Some(4));

const ALL: Window = (Some(9_999_999_999), Some(20_000));

#[rattlefmt::skip]
static WITH_OPTIONS: [Asked; 16] = [
    (&["audit", "a", "--ticks", "4"], Wanted::Audit, "a", FOUR),
    (&["--ticks", "4", "audit", "a"], Wanted::Audit, "a", FOUR),
    (&["audit", "--ticks=4", "a"], Wanted::Audit, "a", FOUR),
    (&["audit", "--ticks", "4", "--", "a"], Wanted::Audit, "a", FOUR),
    (&["audit", "--", "--ticks"], Wanted::Audit, "--ticks", OWN),
    (&["audit", "a", "--ticks", "04"], Wanted::Audit, "a", FOUR),
    (&["audit", "a", "--ticks=+4"], Wanted::Audit, "a", FOUR),
    (&["--seed", "00", "--start=9999999999", "--ticks=0020000", "drill", "a"], Wanted::Drill(0), "a", ALL),
    (&["--seed", "0", "drill", "--start=9999999999", "a", "--ticks", "20000"], Wanted::Drill(0), "a", ALL),
    (&["plan", "--why", "a"], Wanted::Plan(true), "a", OWN),
    (&["plan", "--rows", "why.csv", "--why", "--", "a"], Wanted::Plan(true), "a", OWN),
    (&["--rows=-b", "plan", "a"], Wanted::Plan(false), "a", OWN),
    (&["--rows=-b", "recheck", "a"], Wanted::Recheck("-b"), "a", OWN),
    (&["watch", "a", "--why", "--seed=7", "--rows", "b"], Wanted::Watch, "a", OWN),
    (&["migrate", "a", "--ticks", "4", "--why"], Wanted::Migration, "a", OWN),
    (&["audit", "--", "--why"], Wanted::Audit, "--why", OWN),
];

#[test]
fn options_stand_anywhere(rt: HostRuntime) -> Result<(), Fail> {
    are_asked(rt.alloc(), &WITH_OPTIONS)
}

#[rattlefmt::skip]
static NO_NUMBERS: [&[&str]; 11] = [
    &["audit", "a", "--ticks", "0"],
    &["audit", "a", "--ticks", "20001"],
    &["audit", "a", "--ticks", "x"],
    &["audit", "a", "--ticks", ""],
    &["audit", "a", "--ticks", "++4"],
    &["audit", "a", "--ticks", "-4"],
    &["audit", "a", "--ticks", "4 "],
    &["audit", "a", "--ticks", "18446744073709551617"],
    &["audit", "a", "--start=x"],
    &["audit", "a", "--start", "10000000000"],
    &["audit", "a", "--seed=1000000"],
];

#[test]
fn numbers_out_of_form_or_range(rt: HostRuntime) -> Result<(), Fail> {
    are_usage(rt.alloc(), &NO_NUMBERS)
}

#[rattlefmt::skip]
static NO_COMMAND_LINES: [&[&str]; 11] = [
    &[],
    &["audit"],
    &["fly", "a"],
    &["Audit", "a"],
    &["audit", "a", "b"],
    &["audit", "-a"],
    &["audit", "a", "--tick", "4"],
    &["audit", "a", "--ticks"],
    &["audit", "a", "--ticks", "4", "--ticks", "4"],
    &["audit", "a", "--", "--ticks", "4"],
    &["audit", "a", "--help"],
];

#[rattlefmt::skip]
static NO_FLAGS_OR_TEXTS: [&[&str]; 8] = [
    &["plan", "a", "--why", "--why"],
    &["plan", "a", "--why=true"],
    &["plan", "a", "--why="],
    &["plan", "a", "--why", "true"],
    &["plan", "a", "--rows"],
    &["plan", "a", "--rows", "-b"],
    &["plan", "a", "--rows", "--why"],
    &["plan", "a", "--rows", "b", "--rows", "b"],
];

#[test]
fn flags_and_texts_out_of_form(rt: HostRuntime) -> Result<(), Fail> {
    are_usage(rt.alloc(), &NO_FLAGS_OR_TEXTS)
}

#[test]
fn words_that_are_no_command_line(rt: HostRuntime) -> Result<(), Fail> {
    are_usage(rt.alloc(), &NO_COMMAND_LINES)
}

fn told(alloc: Global, texts: &[&str]) -> Result<Option<InfoRequest>, Memory> {
    let words = words(alloc, texts)?;
    Ok(info_request(words.as_slice()))
}

/// Words, and what they ask the program to say about itself.
static TOLD: [(&[&str], Option<InfoRequest>); 7] = [
    (&["--help"], Some(InfoRequest::Help)),
    (&["-h"], Some(InfoRequest::Summary)),
    (&["--version"], Some(InfoRequest::Version)),
    (&["-V"], Some(InfoRequest::Version)),
    (&["audit"], None),
    (&["audit", "--help"], None),
    (&[], None),
];

#[test]
fn a_single_word_is_told(rt: HostRuntime) -> Result<(), Fail> {
    for (texts, expected) in &TOLD {
        is(told(rt.alloc(), texts)?, *expected)?;
    }
    Ok(())
}

fn holds(text: &Result<String, Memory>, part: &str) -> bool {
    match text {
        Ok(text) => text.as_str().contains(part),
        Err(_) => false,
    }
}

/// What the texts have that the program writes about itself.
#[rattlefmt::skip]
static PARTS: [(InfoRequest, &str); 13] = [
    (InfoRequest::Help, "- points: "),
    (InfoRequest::Help, "- audit:  "),
    (InfoRequest::Help, "- plan:   "),
    (InfoRequest::Help, "- drill:  "),
    (InfoRequest::Help, "- migrate:"),
    (InfoRequest::Help, "0 to 9999999999"),
    (InfoRequest::Help, "1 to 20000"),
    (InfoRequest::Help, "0 to 999999"),
    (InfoRequest::Help, "[default: 1]"),
    (InfoRequest::Help, "  2  invalid command line\n"),
    (InfoRequest::Help, "colregs audit scenario.toml --ticks 60 < log.nmea\n"),
    (InfoRequest::Summary, "Usage: colregs [OPTIONS] <MODE> <SCENARIO>\n"),
    (InfoRequest::Version, "colregs 0.1.0\n"),
];

#[test]
fn help_names_modes_options_statuses_and_an_example(rt: HostRuntime) -> Result<(), Fail> {
    for (word, part) in &PARTS {
        let found = holds(&info_text(rt.alloc(), *word), part);
        is((*part, found), (*part, true))?;
    }
    Ok(())
}
