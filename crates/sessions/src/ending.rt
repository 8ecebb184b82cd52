//! The end of a session.
ghost use Rattle.std.specs.Prelude.{◌≡◌, false};

/// The rest of a report, and whether it has no manoeuvre.
#[derive(Drop)]
pub struct Ending {
    /// The remaining bytes of the report.
    pub bytes: Vec<u8>,
    /// Every plan of own ship fails.
    pub none: bool,
}

impl Ending {
    /// Returns the ending of a mode that searches for no manoeuvre.
    pub(crate) fn without_search(bytes: Vec<u8>) -> Ending
        ensures { result ≡ record { bytes = bytes; none = false } }
    {
        Ending { bytes, none: false }
    }
}
