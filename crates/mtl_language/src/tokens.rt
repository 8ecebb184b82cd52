//! The tokens of a formula's text.
ghost use Rattle.std.specs.Prelude.{◌≡◌, ◌<◌, ◌≤◌, IfOk, IsTrue, true, find, take, length};
ghost use Rattle.std.specs.Char.{is_ascii_digit};
ghost use Rattle.std.specs.Str.{bytes_eq};
ghost use Rattle.std.specs.Str.Parse.{AllDigits};
ghost use Rattle.mtl_language.specs.AtomWords.{word_of};
ghost use Rattle.std.specs.List.{prefix_len};
ghost use Rattle.mtl_language.specs.FormulaTokens.{is_letter, is_word_byte, measured, measure_token, word_token, number_token, sign_token, front_run, run_token, tokens_of};

use crate::atom_words;
use mtl_formulas::{Atom, LinkKind, PairKind, SpanKind};
use std::alloc::{AllocError, Global};

/// The words that have a number in parentheses after them.
#[derive(Clone, Copy)]
pub(crate) enum Measure {
    Age,
    Clear,
    Close,
}

impl Measure {
    /// Returns the atom with this word and number.
    pub(crate) fn of(self, n: u32) -> Atom
        ensures { result ≡ measured self n }
    {
        match self {
            Measure::Age => Atom::Age(n),
            Measure::Clear => Atom::Clear(n),
            Measure::Close => Atom::Close(n),
        }
    }
}

#[derive(Clone, Copy)]
pub(crate) enum Token {
    /// The word of an atom without a number.
    Atom(Atom),
    Measure(Measure),
    Number(u32),
    Not,
    Pair(PairKind),
    Span(SpanKind),
    Link(LinkKind),
    Open,
    Shut,
    OpenBounds,
    ShutBounds,
    Comma,
    /// What no formula has: a word of no atom, more than nine digits, another byte.
    Wrong,
}

/// A token and the index of its first byte.
#[derive(Clone, Copy)]
pub(crate) struct IndexedToken {
    pub token: Token,
    pub index: usize,
}

/// The atoms that have no number.
const PLAIN: [Atom; 24] = [
    Atom::Always,
    Atom::Never,
    Atom::Seen,
    Atom::Risk,
    Atom::Engaged,
    Atom::Begin,
    Atom::Overtaking,
    Atom::Overtaken,
    Atom::HeadOn,
    Atom::CrossingGives,
    Atom::CrossingStands,
    Atom::Passing,
    Atom::Unclassified,
    Atom::Opening,
    Atom::OtherOnPort,
    Atom::Ahead,
    Atom::Alters,
    Atom::Apparent,
    Atom::ToStarboard,
    Atom::ToPort,
    Atom::OtherApparent,
    Atom::RankGives,
    Atom::RankStands,
    Atom::BothPower,
];

/// Returns the tokens of a text, each with its index.
pub(crate) fn split(alloc: Global, text: &[u8]) -> Result<Vec<IndexedToken>, AllocError>
    ensures { IfOk result (λ tokens. tokens.items ≡ tokens_of text.now) }
{
    let mut tokens = Vec::new(alloc);
    let mut at = 0;
    while at < text.len() {
        if text[at] == b' ' {
            at += 1;
        } else {
            let (token, len) = front(&text[at..]);
            tokens.push(IndexedToken { token, index: at })?;
            at += len;
        }
    }
    Ok(tokens)
}

/// Returns the token at the front, and how many bytes it has.
fn front(bytes: &[u8]) -> (Token, usize)
    requires { 0 < length bytes.now }
    ensures token { result.0 ≡ run_token (front_run bytes.now) }
    ensures len { result.1 ≡ length (front_run bytes.now) }
    ensures some { 0 < result.1 }
    ensures within { result.1 ≤ length bytes.now }
{
    let first = bytes[0];
    if is_letter(first) {
        let len = word_len(bytes);
        (word(&bytes[..len]), len)
    } else if first.is_ascii_digit() {
        let len = digits_len(bytes);
        (number(&bytes[..len]), len)
    } else if bytes.starts_with(b"->".as_slice()) {
        (Token::Pair(PairKind::Implies), 2)
    } else {
        (sign(first), 1)
    }
}

/// How many bytes from the front on may stand in a word.
fn word_len(bytes: &[u8]) -> usize
    ensures { result ≡ prefix_len is_word_byte bytes.now }
{
    bytes.iter().take_while(|b| is_word_byte(**b)).count()
}

/// How many digits stand at the front.
fn digits_len(bytes: &[u8]) -> usize
    ensures { result ≡ prefix_len is_ascii_digit bytes.now }
{
    bytes.iter().take_while(|b| b.is_ascii_digit()).count()
}

fn is_letter(b: u8) -> bool
    ensures { result ≡ is_letter b }
{
    b.is_ascii_lowercase()
}

fn is_word_byte(b: u8) -> bool
    ensures { result ≡ is_word_byte b }
{
    is_letter(b) || b.is_ascii_digit() || b == b'_'
}

fn word(run: &[u8]) -> Token
    ensures { result ≡ word_token run.now }
{
    match find_word(&PLAIN, run) {
        Some(atom) => Token::Atom(atom),
        None => measure_word(run),
    }
}

/// Returns the atom with this word.
fn find_word(atoms: &[Atom], word: &[u8]) -> Option<Atom>
    ensures { result ≡ find (λ a. bytes_eq word.now (word_of a)) atoms.now }
{
    atoms
        .iter()
        .copied()
        .find(|atom| word == atom_words::word(*atom).as_bytes())
}

fn measure_word(run: &[u8]) -> Token
    ensures { result ≡ measure_token run.now }
{
    if run == b"age".as_slice() {
        Token::Measure(Measure::Age)
    } else if run == b"clear".as_slice() {
        Token::Measure(Measure::Clear)
    } else if run == b"close".as_slice() {
        Token::Measure(Measure::Close)
    } else {
        Token::Wrong
    }
}

fn number(run: &[u8]) -> Token
    requires { AllDigits 10 run.now }
    ensures { result ≡ number_token run.now }
{
    if run.len() > 9 {
        return Token::Wrong;
    }
    let mut n: u32 = 0;
    for b in run {
        n = n * 10 + u32::from(*b - b'0');
    }
    Token::Number(n)
}

fn sign(b: u8) -> Token
    ensures { result ≡ sign_token b }
{
    match b {
        b'!' => Token::Not,
        b'&' => Token::Pair(PairKind::And),
        b'(' => Token::Open,
        b')' => Token::Shut,
        b',' => Token::Comma,
        b'F' => Token::Span(SpanKind::F),
        b'G' => Token::Span(SpanKind::G),
        b'H' => Token::Span(SpanKind::H),
        b'O' => Token::Span(SpanKind::O),
        b'S' => Token::Link(LinkKind::S),
        b'U' => Token::Link(LinkKind::U),
        b'[' => Token::OpenBounds,
        b']' => Token::ShutBounds,
        b'|' => Token::Pair(PairKind::Or),
        _ => Token::Wrong,
    }
}
