//! What formulas are made of: tests of one step of an ordered pair of vessels.
use crate::glance::Glance;
use crate::verdict::Verdict;

/// A test of one step of an ordered pair of vessels, the subject and the other. The kind of an engagement is that of its
/// beginning. The rules are those of the COLREGs 1972.
#[derive(Clone, Copy, Debug, PartialEq, Eq)]
pub enum Atom {
    /// `true`.
    Always,
    /// `false`.
    Never,
    /// Both vessels are seen at both ends of the step.
    Seen,
    /// There is risk of collision.
    Risk,
    /// The vessels are engaged.
    Engaged,
    /// The engagement begins here.
    Begin,
    /// Engaged, the subject overtaking (COLREGs Rule 13).
    Overtaking,
    /// Engaged, the subject being overtaken (Rule 13).
    Overtaken,
    /// Engaged head-on (Rule 14).
    HeadOn,
    /// Engaged in a crossing in which the subject gives way (Rule 15).
    CrossingGives,
    /// Engaged in a crossing in which the subject stands on (Rule 15).
    CrossingStands,
    /// Engaged in passing.
    Passing,
    /// Engaged, and of no other kind.
    Unclassified,
    /// Engaged for at least this many seconds, 0 to 7200.
    Age(u32),
    /// The distance does not shrink.
    Opening,
    /// The step is separated by this many metres, 0 to 100,000.
    Clear(u32),
    /// The vessels are nearer than this many metres, 0 to 100,000.
    Close(u32),
    /// The other is on the subject's port side.
    OtherOnPort,
    /// The subject crosses ahead of the other.
    Ahead,
    /// The subject no longer keeps course and speed (Rule 17).
    Alters,
    /// The subject's alteration is readily apparent (Rule 8).
    Apparent,
    /// The subject altered course to starboard.
    ToStarboard,
    /// The subject altered course to port.
    ToPort,
    /// The other's alteration is readily apparent (Rule 8).
    OtherApparent,
    /// The subject gives way by rank (Rule 18).
    RankGives,
    /// The other gives way by rank (Rule 18).
    RankStands,
    /// Neither gives way by rank (Rule 18).
    BothPower,
}

/// A position of a trace: a step of one ordered pair. Its meaning is its answer to each atom.
pub trait Atoms {
    ghost use Rattle.std.specs.Prelude.{◌≡◌};
    ghost use Rattle.mtl_formulas.specs.declared.atom.Atom.{Atom};
    ghost use Rattle.mtl_formulas.specs.declared.verdict.Verdict.{Verdict};
    ghost use Rattle.mtl_formulas.specs.FormulaMeasures.{IsValidAtom};
    ghost use Rattle.mtl_formulas.specs.Glances.{IsTold};

    ghost answer: { Self → Atom → Verdict };

    /// Returns the answer to a valid atom: at most 7200 seconds, at most 100,000 metres.
    fn value(&self, atom: Atom) -> Verdict
        requires { IsValidAtom atom }
        ensures { result ≡ answer self.now atom };

    /// What a glance shows of the answers: it saves asking for each atom.
    fn glance(&self) -> Glance
        ensures { IsTold result (answer self.now) }
    {
        Glance::Nothing
    }
}
