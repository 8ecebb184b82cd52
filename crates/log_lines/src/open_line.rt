//! The bytes after the last line feed of a log.
ghost use Rattle.std.specs.Prelude.{◌≡◌, ◌==◌, ◌++◌, ◌∷◌, [], ℕ, List, OnOk, false, length};
ghost use Rattle.std.specs.List.{All};
ghost use Rattle.std.specs.Option.{option_copied};
ghost use Rattle.log_lines.specs.LogLines.{is_line_feed, without_carriage_return};
ghost use Rattle.log_lines.specs.GrowingLog.{open_part};
ghost use Rattle.log_lines.specs.Inner.OpenLines.{HasExtended};
ghost use Rattle.log_lines.specs.Standing.{IsKnownLine, OpenLineStandsFor};

use crate::line_feeds::strip_carriage_return;
use out_of_memory::Memory;
use std::alloc::Global;

/// The most bytes of an open line that are stored: two more than a line may have, because one may
/// be a carriage return.
const KEPT: usize = 1026;

/// The line that no line feed has ended yet.
#[derive(Drop)]
pub struct OpenLine {
    bytes: Vec<u8>,
}

impl OpenLine {
    /// Returns an empty open line. This takes no memory.
    pub fn new(alloc: Global) -> OpenLine
        ensures { OpenLineStandsFor result [] }
    {
        OpenLine {
            bytes: Vec::new(alloc),
        }
    }

    /// Returns whether it has no byte.
    pub fn is_empty(&self) -> bool
        ensures { (log : List ℕ) → OpenLineStandsFor self.now log
            → result ≡ (length (open_part log) == 0) }
    {
        self.bytes.is_empty()
    }

    /// Appends bytes that contain no line feed.
    pub fn extend(&mut self, part: &[u8]) -> Result<(), Memory>
        requires { All (λ byte. is_line_feed byte ≡ false) part.now }
        ensures { OnOk result
            ((log : List ℕ) → OpenLineStandsFor self.old log
            → OpenLineStandsFor self.new (log ++ part.now)) }
    {
        let room = KEPT.saturating_sub(self.bytes.len());
        let count = part.len().min(room);
        self.bytes.extend_from_slice(&part[..count])?;
        Ok(())
    }

    /// Returns the open line without a carriage return at its end, or `None` if it is too long:
    /// more than 1024 bytes. A line of 1025 bytes may still be returned.
    pub fn line(&self) -> Option<&[u8]>
        ensures { (log : List ℕ) → OpenLineStandsFor self.now log
            → IsKnownLine (option_copied result) (without_carriage_return (open_part log)) }
    {
        if self.bytes.len() >= KEPT {
            return None;
        }
        Some(strip_carriage_return(self.bytes.as_slice()))
    }

    /// Appends the bytes before the line feed that ends the line. If the line is empty so far,
    /// stores none of them: they are the whole line.
    pub(crate) fn extend_open(&mut self, part: &[u8]) -> Result<(), Memory>
        requires { All (λ byte. is_line_feed byte ≡ false) part.now }
        ensures { OnOk result
            ((log : List ℕ) → OpenLineStandsFor self.old log → HasExtended self.new log part.now) }
    {
        if self.is_empty() {
            return Ok(());
        }
        self.extend(part)
    }

    /// Returns the line that a line feed after this part ends, after a call of `extend_open` with the part: the open
    /// line or, if that is empty, the part.
    pub(crate) fn ended_by<'line>(&'line self, part: &'line [u8]) -> Option<&'line [u8]>
        ensures { (log : List ℕ) → HasExtended self.now log part.now
            → IsKnownLine (option_copied result)
            (without_carriage_return (open_part log ++ part.now)) }
    {
        if self.is_empty() {
            Some(strip_carriage_return(part))
        } else {
            self.line()
        }
    }

    /// Ends the line with a line feed: a new one begins.
    pub fn end(&mut self)
        ensures { (log : List ℕ) → OpenLineStandsFor self.old log
            → OpenLineStandsFor self.new (log ++ 10 ∷ []) }
    {
        self.bytes.clear();
    }
}
