//! What one look at a position shows of its answers.
ghost use Rattle.std.specs.Prelude.{◌≡◌, is_none};
ghost use Rattle.mtl_formulas.specs.Glances.{apart_answer, told_by};

use crate::atom::Atom;

/// What a glance at a position shows of its answers.
#[derive(Clone, Copy, PartialEq, Eq)]
pub enum Glance {
    /// Each atom is to be asked.
    Nothing,
    /// The step is seen, without risk of collision or an engagement: only atoms of distance and bearing are to be asked.
    Apart,
    /// The step is not seen, and there is no engagement: no atom is to be asked.
    Unseen,
    /// All answers are Open, as past a trace's end.
    Beyond,
}

impl Atom {
    /// Returns whether a glance leaves the answer to this atom open, so that it is to be asked.
    pub fn is_untold(self, glance: Glance) -> bool
        ensures { result ≡ is_none (told_by glance self) }
    {
        match glance {
            Glance::Nothing => true,
            Glance::Apart => self.is_measured(),
            Glance::Unseen | Glance::Beyond => false,
        }
    }

    /// Returns whether it is of a distance or a bearing.
    fn is_measured(self) -> bool
        ensures { result ≡ is_none (apart_answer self) }
    {
        matches!(
            self,
            Atom::Opening | Atom::Clear(_) | Atom::Close(_) | Atom::OtherOnPort | Atom::Ahead
        )
    }
}
