//! The line ends of a log.
ghost use Rattle.std.specs.Prelude.{◌≡◌, position};
ghost use Rattle.log_lines.specs.LogLines.{is_line_feed, without_carriage_return};

use memchr::memchr;

/// Returns the index of the first line feed.
pub fn first_line_feed(rest: &[u8]) -> Option<usize>
    ensures { result ≡ position is_line_feed rest.now }
{
    memchr(b'\n', rest)
}

/// Returns the part without the carriage return at its end, if it has one.
pub fn strip_carriage_return(part: &[u8]) -> &[u8]
    ensures { result.now ≡ without_carriage_return part.now }
{
    match part {
        [front @ .., b'\r'] => front,
        _ => part,
    }
}
