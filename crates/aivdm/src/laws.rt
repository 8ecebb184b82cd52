//! Laws of reading and joining, which follow from the definitions alone.
ghost use Rattle.std.specs.Prelude.{◌≡◌, ◌<◌, ◌≤◌, ◌++◌, ◌∷◌, [], ℕ, Bool, List, IsTrue};
ghost use Rattle.aivdm.specs.FragmentJoining.{have_one_key, joined_of, number_of_part, total_of, Taken};
ghost use Rattle.aivdm.specs.LineReading.{IsReading};
ghost use Rattle.aivdm.specs.ReadingOf.{reading_of};
ghost use Rattle.aivdm.specs.Sentences.{LineContent};
ghost use Rattle.aivdm.specs.declared.joiner.Joined.TheVariants.{Message, Orphan};

/// Each line of any bytes has exactly one reading, which is `reading_of`.
pub fn one_reading()
    ensures one { (line : List ℕ) → IsReading line (reading_of line) }
    ensures only { (line : List ℕ) (content : LineContent) → IsReading line content
        → content ≡ reading_of line }
{}

/// A complete message of several sentences is closed: the next sentence of its key must have number 1.
pub fn complete_message_is_closed()
    ensures { (before : List Taken) (last next : Taken) (bits : List Bool) → 1 < total_of last
        → joined_of before last ≡ Message bits → IsTrue (have_one_key next.sentence last.sentence)
        → 2 ≤ number_of_part next → number_of_part next ≤ total_of next
        → joined_of (before ++ last ∷ []) next ≡ Orphan }
{}
