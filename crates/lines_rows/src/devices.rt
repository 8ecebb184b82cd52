//! One successful path of each kind, its failing call, and chunks of one byte.
use crate::compared::{is, is_true};
use out_of_memory::Memory;
use outside::{
    Fetched, FileShelf, MemoryShelf, MemorySink, MemorySource, PlainShelf, PlainSource, Put,
    ReadFault, Shelf, Sink, Source, StdSink, StdSource, Taken, Word, put_all, read_whole,
};
use std::alloc::Global;
use std::io::{self, Write};
use std::process::Abort;
use std::rt::Files;
use std::test::Fail;
use std::{env, fs, process};

#[test]
fn a_word_is_its_text(rt: HostRuntime) -> Result<(), Memory> {
    let name = Word::new(rt.alloc(), "Lübeck.toml")?;
    is(&rt, name.text(), "Lübeck.toml");
    is(&rt, name.bytes().len(), 12);
    Ok(())
}

/// Returns the result of a read, and the first byte of the room, which is 0 if the read wrote nothing.
fn read(source: &mut impl Source) -> (Taken, u8) {
    let mut room = [0u8; 8];
    let taken = source.read(&mut room);
    (taken, room[0])
}

/// Compares the result of each read of a source.
fn are_read(rt: &impl Abort, source: &mut impl Source, reads: &[(Taken, u8)]) {
    for wanted in reads {
        is(rt, read(source), *wanted);
    }
}

static ONE_BY_ONE: [(Taken, u8); 3] = [
    (Taken::Got(1), b'a'),
    (Taken::Got(1), b'b'),
    (Taken::End, 0),
];

#[test]
fn a_plain_source_gives_its_bytes_one_by_one(rt: HostRuntime) -> Result<(), Memory> {
    let mut source = PlainSource::new(b"ab".to_vec(rt.alloc())?, 1);
    are_read(&rt, &mut source, &ONE_BY_ONE);
    Ok(())
}

static PAST_TWO_FAULTS: [(Taken, u8); 5] = [
    (Taken::Got(2), b'a'),
    (Taken::Failed, 0),
    (Taken::Failed, 0),
    (Taken::Got(1), b'c'),
    (Taken::End, 0),
];

#[test]
fn a_listed_read_fails_and_loses_nothing(rt: HostRuntime) -> Result<(), Memory> {
    let bytes = b"abc".to_vec(rt.alloc())?;
    let mut source = MemorySource::new(bytes, 2, vec![in rt.alloc(); 1, 2]?);
    are_read(&rt, &mut source, &PAST_TWO_FAULTS);
    Ok(())
}

#[test]
fn all_is_put_in_pieces_of_one(rt: HostRuntime) {
    let mut sink = MemorySink::new(rt.alloc(), 1, Vec::new(rt.alloc()));
    is_true(&rt, put_all(&mut sink, b"red"));
    is_true(&rt, put_all(&mut sink, b" and green"));
    is(&rt, sink.bytes(), b"red and green".as_slice());
}

#[test]
fn a_listed_write_leaves_a_front(rt: HostRuntime) -> Result<(), Memory> {
    let mut sink = MemorySink::new(rt.alloc(), 2, vec![in rt.alloc(); 1]?);
    is_true(&rt, !put_all(&mut sink, b"green"));
    is(&rt, sink.bytes(), b"gr".as_slice());
    is(&rt, sink.write(b"een"), Put::Took(2));
    Ok(())
}

/// Returns the fetched bytes, or why there are none.
fn found(fetched: &Fetched) -> Result<&[u8], &'static str> {
    match fetched {
        Fetched::Bytes(bytes) => Ok(bytes.as_slice()),
        Fetched::TooLong => Err("too long"),
        Fetched::Failed => Err("failed"),
        Fetched::Memory => Err("no memory"),
    }
}

/// Fetches a name from a shelf.
fn fetched(shelf: &mut impl Shelf, alloc: Global, name: &str, limit: u64) -> Fetched {
    match Word::new(alloc, name) {
        Ok(name) => shelf.fetch(alloc, &name, limit),
        Err(_) => Fetched::Memory,
    }
}

/// Compares the result of fetching a name from a shelf.
fn is_given(
    rt: &impl Abort,
    alloc: Global,
    shelf: &mut impl Shelf,
    name: &str,
    limit: u64,
    wanted: Result<&[u8], &'static str>,
) {
    is(rt, found(&fetched(shelf, alloc, name, limit)), wanted);
}

/// A name and a limit, and the fetched bytes, or why there are none.
type Fetch = (&'static str, u64, Result<&'static [u8], &'static str>);

/// Compares the results of fetches from a shelf.
fn gives(rt: &impl Abort, alloc: Global, shelf: &mut impl Shelf, fetches: &[Fetch]) {
    for (name, limit, wanted) in fetches {
        is_given(rt, alloc, shelf, name, *limit, *wanted);
    }
}

static LIMITS: [Fetch; 3] = [
    ("log", 5, Ok(b"12345")),
    ("log", 4, Err("too long")),
    ("lo", 5, Err("failed")),
];

#[test]
fn a_shelf_gives_what_is_no_longer_than_the_limit(rt: HostRuntime) -> Result<(), Memory> {
    let file = (Word::new(rt.alloc(), "log")?, b"12345".to_vec(rt.alloc())?);
    let mut shelf = PlainShelf::new(vec![in rt.alloc(); file]?);
    gives(&rt, rt.alloc(), &mut shelf, &LIMITS);
    Ok(())
}

static FAILED_ONCE: [Fetch; 2] = [("log", 0, Err("failed")), ("log", 0, Ok(b""))];

#[test]
fn a_listed_fetch_fails(rt: HostRuntime) -> Result<(), Memory> {
    let first = (Word::new(rt.alloc(), "log")?, Vec::new(rt.alloc()));
    let second = (Word::new(rt.alloc(), "rows")?, Vec::new(rt.alloc()));
    let files = vec![in rt.alloc(); first, second]?;
    let mut shelf = MemoryShelf::new(files, vec![in rt.alloc(); 0]?);
    gives(&rt, rt.alloc(), &mut shelf, &FAILED_ONCE);
    Ok(())
}

#[test]
fn a_reader_of_std_is_a_source(rt: HostRuntime) {
    let mut source = StdSource::new(b"ab".as_slice());
    let mut room = [0u8; 8];
    is(&rt, source.read(&mut room), Taken::Got(2));
    is(&rt, &room[..2], b"ab".as_slice());
    is(&rt, source.read(&mut room), Taken::End);
}

#[test]
fn a_writer_of_std_is_a_sink(rt: HostRuntime) {
    let mut written = Vec::new(rt.alloc());
    is_true(&rt, put_all(&mut StdSink::new(&mut written), b"red"));
    is(&rt, written.as_slice(), b"red".as_slice());
}

/// A writer that takes all bytes and counts its flushes.
#[derive(Drop)]
struct Flushes {
    count: u32,
}

impl Write for Flushes {
    fn write(&mut self, buf: &[u8]) -> io::Result<usize> {
        Ok(buf.len())
    }

    fn flush(&mut self) -> io::Result<()> {
        self.count = self.count.saturating_add(1);
        Ok(())
    }
}

#[test]
fn each_write_is_flushed(rt: HostRuntime) {
    let mut writer = Flushes { count: 0 };
    let mut sink = StdSink::new(&mut writer);
    is(&rt, sink.write(b"red"), Put::Took(3));
    is(&rt, sink.write(b"and"), Put::Took(3));
    drop(sink);
    is(&rt, writer.count, 2);
}

/// Compares the rest of a source, read up to a limit.
fn is_whole(
    rt: &impl Abort,
    alloc: Global,
    source: &mut impl Source,
    limit: u64,
    wanted: Result<&[u8], ReadFault>,
) {
    match read_whole(alloc, source, limit) {
        Ok(bytes) => is(rt, Ok(bytes.as_slice()), wanted),
        Err(fault) => is(rt, Err(fault), wanted),
    }
}

// It reads one byte after the limit, and no more.
#[test]
fn what_is_too_long_is_read_up_to_the_byte_behind_the_limit(rt: HostRuntime) -> Result<(), Memory> {
    let mut source = PlainSource::new(b"abcdef".to_vec(rt.alloc())?, 3);
    is_whole(&rt, rt.alloc(), &mut source, 4, Err(ReadFault::TooLong));
    is_whole(&rt, rt.alloc(), &mut source, 1, Ok(b"f"));
    Ok(())
}

/// Returns the path of a file of this process in the folder for such files.
fn path_of(rt: &HostRuntime, name: &str) -> Result<String, Fail> {
    let folder = env::temp_dir(rt)?;
    let process = process::id(rt.process());
    Ok(format!(in rt.alloc(); "{}/{name}_{process}", folder.as_str())?)
}

// Opening a folder succeeds, but reading it fails.
#[test]
fn a_folder_is_a_fault_and_no_file(rt: HostRuntime) -> Result<(), Fail> {
    let folder = env::temp_dir(&rt)?;
    let mut shelf = FileShelf::new(rt.clone()?);
    is_given(
        &rt,
        rt.alloc(),
        &mut shelf,
        folder.as_str(),
        0,
        Err("failed"),
    );
    Ok(())
}

/// Checks that a fetch returns the second of two files with the contents "red" and "green".
fn is_fetched_of_two<R: Abort + Files>(
    rt: &R,
    alloc: Global,
    shelf: &mut impl Shelf,
    first: &str,
    second: &str,
) -> io::Result<()> {
    fs::write(rt, first, b"red")?;
    fs::write(rt, second, b"green")?;
    is_given(rt, alloc, shelf, second, 5, Ok(b"green"));
    fs::remove_file(rt, first)?;
    fs::remove_file(rt, second)
}

#[test]
fn of_two_files_the_named_one_is_fetched(rt: HostRuntime) -> Result<(), Fail> {
    let first = path_of(&rt, "first")?;
    let second = path_of(&rt, "second")?;
    let mut shelf = FileShelf::new(rt.clone()?);
    is_fetched_of_two(&rt, rt.alloc(), &mut shelf, first.as_str(), second.as_str())?;
    Ok(())
}

/// Checks that a fetch returns all of a file with these bytes while it exists.
fn is_fetched_whole<R: Abort + Files>(
    rt: &R,
    alloc: Global,
    shelf: &mut impl Shelf,
    path: &str,
    bytes: &[u8],
) -> io::Result<()> {
    fs::write(rt, path, bytes)?;
    is_given(rt, alloc, shelf, path, 70_000, Ok(bytes));
    is_given(rt, alloc, shelf, path, 69_999, Err("too long"));
    fs::remove_file(rt, path)?;
    is_given(rt, alloc, shelf, path, 70_000, Err("failed"));
    Ok(())
}

// The file has more than one block, so a later read reaches its end.
#[test]
fn a_file_is_fetched_whole(rt: HostRuntime) -> Result<(), Fail> {
    let path = path_of(&rt, "fetched_whole")?;
    let bytes = vec![in rt.alloc(); b'x'; 70_000]?;
    let mut shelf = FileShelf::new(rt.clone()?);
    is_fetched_whole(&rt, rt.alloc(), &mut shelf, path.as_str(), bytes.as_slice())?;
    Ok(())
}
