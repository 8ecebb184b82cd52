//! Counts of the values that still matter in a window.
ghost use Rattle.std.specs.Prelude.{◌≡◌};
ghost use Rattle.mtl_monitor.specs.WindowCounts.{same_left, left_after, left_under, left_value};

use mtl_formulas::Verdict;

/// For how many values more a Yes, and a value that is not No, stay in a window: 0 where it has none. No position is named,
/// so that equal values soon leave the counts as they are.
#[derive(Clone, Copy)]
pub struct Left {
    pub yes: u32,
    pub some: u32,
}

/// Nothing is left.
pub(crate) const NOTHING: Left = Left { yes: 0, some: 0 };

impl Left {
    pub(crate) fn is_same(self, other: Left) -> bool
        ensures { result ≡ same_left self other }
    {
        self.yes == other.yes && self.some == other.some
    }

    /// Reads one more value into a window of `width` values.
    pub fn read(&mut self, value: Verdict, width: u32)
        ensures { self.new ≡ left_after self.old width value }
    {
        match value {
            Verdict::No => {
                self.yes = self.yes.saturating_sub(1);
                self.some = self.some.saturating_sub(1);
            }
            Verdict::Open => {
                self.yes = self.yes.saturating_sub(1);
                self.some = width;
            }
            Verdict::Yes => {
                self.yes = width;
                self.some = width;
            }
        }
    }

    /// Lets nothing count for more than a value.
    pub fn limit(&mut self, value: Verdict)
        ensures { self.new ≡ left_under self.old value }
    {
        match value {
            Verdict::No => {
                self.yes = 0;
                self.some = 0;
            }
            Verdict::Open => self.yes = 0,
            Verdict::Yes => {}
        }
    }

    /// Returns the greatest value in the window.
    pub fn value(self) -> Verdict
        ensures { result ≡ left_value self }
    {
        if self.yes > 0 {
            Verdict::Yes
        } else if self.some > 0 {
            Verdict::Open
        } else {
            Verdict::No
        }
    }
}
