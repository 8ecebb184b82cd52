//! A line that comes in pieces.
use log_lines::OpenLine;
use std::test::Fail;
use test_support::is_true;

fn has_line(open: &OpenLine, bytes: &[u8]) -> bool {
    match open.line() {
        Some(line) => line == bytes,
        None => false,
    }
}

#[test]
fn a_line_comes_in_pieces(rt: HostRuntime) -> Result<(), Fail> {
    let mut open = OpenLine::new(rt.alloc());
    is_true(open.is_empty())?;
    open.extend(b"!AIVDM")?;
    open.extend(b",1\r")?;
    is_true(has_line(&open, b"!AIVDM,1"))?;
    open.end();
    is_true(has_line(&open, b""))
}

#[test]
fn no_more_is_kept_than_tells_that_a_line_is_too_long(rt: HostRuntime) -> Result<(), Fail> {
    let mut open = OpenLine::new(rt.alloc());
    open.extend(&[b'x'; 1024])?;
    open.extend(b"\r")?;
    is_true(has_line(&open, &[b'x'; 1024]))?;
    open.extend(b"x")?;
    is_true(open.line().is_none())
}
