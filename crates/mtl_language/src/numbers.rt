//! Which numbers of a formula are refused.
ghost use Rattle.std.specs.Prelude.{◌≡◌, ◌≤◌, [], ◌∷◌, List, ℕ, MatchOption};
ghost use Rattle.mtl_language.specs.FormulaReading.{is_refused_time, is_refused, is_refused_token, refused_indices};

use crate::tokens::{IndexedToken, Measure, Token};

/// The greatest number of seconds, and of metres.
const SECONDS: u32 = 7200;

const METRES: u32 = 100_000;

/// Returns the index of the first refused number of a formula.
pub(crate) fn first_refused(tokens: &[IndexedToken], tick: u32) -> Option<usize>
    requires { 1 ≤ tick }
    ensures { let refused = refused_indices tick [] tokens.now in
        MatchOption result (refused ≡ []) (λ index. (more : List ℕ) × (refused ≡ index ∷ more)) }
{
    let mut earlier = Token::Wrong;
    let mut previous = Token::Wrong;
    for indexed in tokens {
        if is_refused_token(earlier, previous, indexed.token, tick) {
            return Some(indexed.index);
        }
        earlier = previous;
        previous = indexed.token;
    }
    None
}

/// Returns whether the token is a refused number, by the two tokens before it.
fn is_refused_token(earlier: Token, previous: Token, token: Token, tick: u32) -> bool
    requires { 1 ≤ tick }
    ensures { result ≡ is_refused_token tick (previous ∷ earlier ∷ []) token }
{
    match token {
        Token::Number(n) => is_refused(earlier, previous, n, tick),
        _ => false,
    }
}

fn is_refused(earlier: Token, previous: Token, n: u32, tick: u32) -> bool
    requires { 1 ≤ tick }
    ensures { result ≡ is_refused tick (previous ∷ earlier ∷ []) n }
{
    match (previous, earlier) {
        (Token::OpenBounds, _) => is_refused_time(n, tick),
        (Token::Comma, Token::Number(lower)) => is_refused_time(n, tick) || n < lower,
        (Token::Open, Token::Measure(Measure::Age)) => is_refused_time(n, tick),
        (Token::Open, Token::Measure(Measure::Clear | Measure::Close)) => n > METRES,
        _ => false,
    }
}

fn is_refused_time(seconds: u32, tick: u32) -> bool
    requires { 1 ≤ tick }
    ensures { result ≡ is_refused_time tick seconds }
{
    seconds > SECONDS || seconds % tick != 0
}
