//! Reading a formula from its text.
ghost use Rattle.std.specs.Prelude.{◌≡◌, ◌≤◌, length, IfOk, IfSome};
ghost use Rattle.mtl_formulas.specs.FormulaTree.{tree_of};
ghost use Rattle.mtl_formulas.specs.FormulaMeasures.{IsValid, IsTick};
ghost use Rattle.mtl_language.specs.FormulaReading.{Meaning, IsMeaning, answered};

use crate::building::build;
use crate::numbers::first_refused;
use crate::postfix::arrange;
use crate::tokens::split;
use mtl_formulas::Formula;
use out_of_memory::Memory;
use std::alloc::{AllocError, AllocFailed, Global};
use std::error::Error;
use std::fmt;

/// Why a text gives no formula. The number is the index of a byte of the text, counted from 0.
#[derive(Clone, Copy, Debug, PartialEq, Eq)]
pub enum ParseFault {
    /// The text is no formula. The byte is the first of the first token with which no formula continues; or it is the
    /// text's length, 0 to 1024, if the text ends too early.
    Syntax(usize),
    /// The text is a formula. The byte is the first of its first refused number: metres above 100,000, seconds above 7200 or
    /// between ticks, an upper bound below the lower one.
    Number(usize),
    /// The formula is deeper than 64, has more than 256 nodes, or reaches further than 7200 positions.
    Size,
    /// Memory ran out.
    Memory,
}

impl fmt::Display for ParseFault {
    ghost use Rattle.std.specs.Prelude.{Some};
    ghost use Rattle.mtl_language.specs.FaultTexts.{fault_text};

    ghost output = { λ fault. Some (fault_text fault) };

    fn fmt<W: fmt::Write>(&self, f: &mut fmt::Formatter<W>) -> fmt::Result {
        match self {
            ParseFault::Syntax(byte) => write!(f, "no formula from byte {byte} on"),
            ParseFault::Number(byte) => write!(f, "the number at byte {byte} is refused"),
            ParseFault::Size => f.write_str("the formula is too large"),
            ParseFault::Memory => f.write_str("out of memory"),
        }
    }
}

impl Error for ParseFault {}

impl From<AllocError> for ParseFault {
    ghost use Rattle.std.specs.Prelude.{◌≡◌};
    ghost use Rattle.mtl_language.specs.declared.parsing.ParseFault.TheVariants.{Memory};

    ghost from_gives = { λ _ e. e ≡ Memory };

    fn from(_e: AllocError) -> ParseFault {
        ParseFault::Memory
    }
}

impl<T: Drop> From<AllocFailed<T>> for ParseFault {
    ghost use Rattle.std.specs.Prelude.{◌≡◌};
    ghost use Rattle.mtl_language.specs.declared.parsing.ParseFault.TheVariants.{Memory};

    ghost from_gives = { λ _ e. e ≡ Memory };

    fn from(_e: AllocFailed<T>) -> ParseFault {
        ParseFault::Memory
    }
}

impl From<Memory> for ParseFault {
    ghost use Rattle.std.specs.Prelude.{◌≡◌};
    ghost use Rattle.mtl_language.specs.declared.parsing.ParseFault.TheVariants.{Memory};

    ghost from_gives = { λ _ e. e ≡ Memory };

    fn from(_e: Memory) -> ParseFault {
        ParseFault::Memory
    }
}

/// Reads a formula:
///
/// ```text
/// formula     := disjunction [ "->" formula ]
/// disjunction := conjunction { "|" conjunction }
/// conjunction := middle { "&" middle }
/// middle      := unary [ ( "U" | "S" ) bounds unary ]
/// unary       := "!" unary | ( "F" | "G" | "O" | "H" ) bounds unary | "(" formula ")" | atom
/// bounds      := "[" number "," number "]"
/// ```
///
/// An atom is its word, with a number in parentheses for `age` in seconds, `clear` and `close` in metres. Bounds are in
/// seconds, multiples of the tick, which is 1 to 60 seconds; the formula counts them in positions, one a tick. Spaces may
/// stand before, between and after the tokens. The operators are those of metric temporal logic (Koymans 1990) with bounded
/// closed intervals; their letters are the usual ones.
///
/// A wrong token is reported before a refused number, and that before the size. If memory runs out, nothing is
/// kept.
pub fn parse(alloc: Global, text: &[u8], tick: u32) -> Result<Formula, ParseFault>
    requires text { length text.now ≤ 1024 }
    requires tick { IsTick tick }
    // The answer is what the text means, and it means nothing else.
    ensures right { IfSome (answered result) (IsMeaning text.now tick) }
    ensures only { (m : Meaning) → IsMeaning text.now tick m →
        IfSome (answered result) (λ n. n ≡ m) }
    ensures valid { IfOk result (λ f. IsValid (tree_of f)) }
{
    let tokens = split(alloc, text)?;
    let postfix = arrange(alloc, &tokens, text.len())?;
    if let Some(index) = first_refused(&tokens, tick) {
        return Err(ParseFault::Number(index));
    }
    build(alloc, &postfix, tick)
}
