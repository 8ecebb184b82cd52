//! The words of the atoms.
ghost use Rattle.std.specs.Prelude.{◌≡◌};
ghost use Rattle.mtl_language.specs.AtomWords.{word_of};

use mtl_formulas::Atom;

/// Returns the word that the language has for the atom; an atom with a number has it in parentheses after the word.
pub(crate) fn word(atom: Atom) -> &'static str
    ensures { result.now ≡ word_of atom }
{
    match atom {
        Atom::Always => "true",
        Atom::Never => "false",
        Atom::Seen => "seen",
        Atom::Risk => "risk",
        Atom::Engaged => "engaged",
        Atom::Begin => "begin",
        Atom::Overtaking => "overtaking",
        Atom::Overtaken => "overtaken",
        Atom::HeadOn => "head_on",
        Atom::CrossingGives => "crossing_gives",
        Atom::CrossingStands => "crossing_stands",
        Atom::Passing => "passing",
        Atom::Unclassified => "unclassified",
        Atom::Age(_) => "age",
        Atom::Opening => "opening",
        Atom::Clear(_) => "clear",
        Atom::Close(_) => "close",
        Atom::OtherOnPort => "other_on_port",
        Atom::Ahead => "ahead",
        Atom::Alters => "alters",
        Atom::Apparent => "apparent",
        Atom::ToStarboard => "to_starboard",
        Atom::ToPort => "to_port",
        Atom::OtherApparent => "other_apparent",
        Atom::RankGives => "rank_gives",
        Atom::RankStands => "rank_stands",
        Atom::BothPower => "both_power",
    }
}
