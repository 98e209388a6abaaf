ghost use Rattle.std.specs.Prelude.{◌≡◌, ◌<◌, ◌≤◌, length, cond, nat_le, IfOk};
ghost use Rattle.std.specs.List.{prefix_len};
ghost use Rattle.tokens.specs.Classes.{space, alnum, digit, sign_of, spelt};
ghost use Rattle.tokens.specs.Lexing.{token, lettered, numbered, sign_at, word_of};
ghost use Rattle.tokens.specs.Items.{items, ahead_of, left_of, cut_at};
ghost use Rattle.tokens.specs.Cursors.{ends_at};
ghost use Rattle.tokens.specs.Digits.{digits, digits_in};

use super::rest::Rest;
use super::token::{Sign, Spot, Token, Word};
use faults::Fault;
use names::{MOST_BYTES, Named, lookup};
use problem::{Constant, Infix, Operator, Prefix, Turn};

// The most digits of a number.
const MOST_DIGITS: usize = 3;

// What was cut off the front of some bytes, and what is left.
#[derive(Clone, Copy)]
pub struct Cut<'a> {
    pub next: Option<Result<Spot<'a>, Fault>>,
    pub rest: Rest<'a>,
}

const RESERVED: [Word; 24] = [
    Word::Atoms,
    Word::Rel,
    Word::Var,
    Word::Horizon,
    Word::Formula,
    Word::Prefix(Prefix::Not),
    Word::Prefix(Prefix::After),
    Word::Prefix(Prefix::Always),
    Word::Prefix(Prefix::Eventually),
    Word::Prefix(Prefix::Before),
    Word::Prefix(Prefix::Historically),
    Word::Prefix(Prefix::Once),
    Word::Infix(Infix::And),
    Word::Infix(Infix::Or),
    Word::Infix(Infix::Implies),
    Word::Infix(Infix::Until),
    Word::Infix(Infix::Since),
    Word::All,
    Word::Some,
    Word::No,
    Word::In,
    Word::Constant(Constant::Univ),
    Word::Constant(Constant::None),
    Word::Constant(Constant::Iden),
];

impl Named for Word {
    ghost named = { λ w. spelt w };

    fn name(&self) -> &[u8] {
        match self {
            Word::Atoms => b"atoms",
            Word::Rel => b"rel",
            Word::Var => b"var",
            Word::Horizon => b"horizon",
            Word::Formula => b"formula",
            Word::Prefix(Prefix::Not) => b"not",
            Word::Prefix(Prefix::After) => b"after",
            Word::Prefix(Prefix::Always) => b"always",
            Word::Prefix(Prefix::Eventually) => b"eventually",
            Word::Prefix(Prefix::Before) => b"before",
            Word::Prefix(Prefix::Historically) => b"historically",
            Word::Prefix(Prefix::Once) => b"once",
            Word::Infix(Infix::And) => b"and",
            Word::Infix(Infix::Or) => b"or",
            Word::Infix(Infix::Implies) => b"implies",
            Word::Infix(Infix::Until) => b"until",
            Word::Infix(Infix::Since) => b"since",
            Word::All => b"all",
            Word::Some => b"some",
            Word::No => b"no",
            Word::In => b"in",
            Word::Constant(Constant::Univ) => b"univ",
            Word::Constant(Constant::None) => b"none",
            Word::Constant(Constant::Iden) => b"iden",
        }
    }
}

// The sign that a byte is alone.
fn sign_of(b: u8) -> Option<Sign>
    ensures { result ≡ sign_of b }
{
    let sign = match b as char {
        ';' => Sign::Semicolon,
        ':' => Sign::Colon,
        '{' => Sign::OpenBrace,
        '}' => Sign::CloseBrace,
        '(' => Sign::OpenParen,
        ')' => Sign::CloseParen,
        '[' => Sign::OpenBracket,
        ']' => Sign::CloseBracket,
        '|' => Sign::Bar,
        '=' => Sign::Equal,
        '+' => Sign::Operator(Operator::Union),
        '-' => Sign::Operator(Operator::Difference),
        '&' => Sign::Operator(Operator::Intersection),
        '\'' => Sign::Prime,
        '~' => Sign::Turn(Turn::Transpose),
        '^' => Sign::Turn(Turn::Closure),
        '.' => Sign::Operator(Operator::Join),
        _ => return None,
    };
    Some(sign)
}

// The reserved word that some bytes spell.
#[tactic(auto, using(std::proofs::lemmas::Option::slice_get_read), unfolding(crate::specs::Lexing::word_of))]
fn word_of(s: &[u8]) -> Option<Word>
    ensures { result ≡ word_of s.now }
{
    Some(RESERVED[lookup(&RESERVED, s)?])
}

// How many separators stand at the front.
fn spaces(s: &[u8]) -> usize
    ensures count { result ≡ prefix_len space s.now }
    ensures inside { result ≤ length s.now }
{
    s.iter()
        .take_while(|b| matches!(**b as char, ' ' | '\t' | '\n' | '\r'))
        .count()
}

// How many letters and digits stand at the front.
fn letters_and_digits(s: &[u8]) -> usize
    ensures count { result ≡ prefix_len alnum s.now }
    ensures inside { result ≤ length s.now }
{
    s.iter()
        .take_while(|b| matches!(**b as char, 'a'..='z' | 'A'..='Z' | '0'..='9'))
        .count()
}

// How many digits stand at the front.
fn digits_alone(s: &[u8]) -> usize
    ensures count { result ≡ prefix_len digit s.now }
    ensures inside { result ≤ length s.now }
{
    s.iter()
        .take_while(|b| matches!(**b as char, '0'..='9'))
        .count()
}

// A length that a token may have.
fn few(n: usize, most: usize, place: usize) -> Result<usize, Fault>
    ensures { result ≡ cond (nat_le n most) (Ok n) (Err (Fault.TokenTooLong place)) }
{
    if n > most {
        return Err(Fault::TokenTooLong { place });
    }
    Ok(n)
}

// The name or the reserved word at the front of some bytes that begin with a letter, and how long it is.
fn word_at<'a>(rest: Rest<'a>) -> Result<(Token<'a>, usize), Fault>
    ensures token { cut_at result rest.entry.bytes.now rest.entry.place ≡ lettered rest.entry.bytes.now rest.entry.place }
    ensures inside { IfOk result (λ t. t.1 ≤ length rest.entry.bytes.now) }
    ensures brief { IfOk result (λ t. digits t.0 ≤ 3) }
{
    let n = few(letters_and_digits(rest.bytes), MOST_BYTES, rest.place)?;
    let name = &rest.bytes[..n];
    match word_of(name) {
        Some(word) => Ok((Token::Word(word, name), n)),
        None => Ok((Token::Name(name), n)),
    }
}

// The number at the front of some bytes that begin with a digit, and how long it is.
fn number_at<'a>(rest: Rest<'a>) -> Result<(Token<'a>, usize), Fault>
    ensures token { cut_at result rest.entry.bytes.now rest.entry.place ≡ numbered rest.entry.bytes.now rest.entry.place }
    ensures inside { IfOk result (λ t. t.1 ≤ length rest.entry.bytes.now) }
    ensures brief { IfOk result (λ t. digits t.0 ≤ 3) }
{
    let n = few(digits_alone(rest.bytes), MOST_DIGITS, rest.place)?;
    Ok((Token::Number(&rest.bytes[..n]), n))
}

// The sign at the front, and how long it is.
fn sign_at<'a>(rest: Rest<'a>) -> Result<(Token<'a>, usize), Fault>
    requires { 0 < length rest.bytes.now }
    ensures token { cut_at result rest.entry.bytes.now rest.entry.place ≡ sign_at rest.entry.bytes.now rest.entry.place }
    ensures inside { IfOk result (λ t. t.1 ≤ length rest.entry.bytes.now) }
    ensures brief { IfOk result (λ t. digits t.0 ≤ 3) }
{
    if let [b'-', b'>', ..] = rest.bytes {
        return Ok((Token::Sign(Sign::Operator(Operator::Product)), 2));
    }
    let sign = sign_of(rest.bytes[0]).ok_or(Fault::NoToken { place: rest.place })?;
    Ok((Token::Sign(sign), 1))
}

// The token at the front of some bytes, and how long it is.
fn token_at<'a>(rest: Rest<'a>) -> Result<(Token<'a>, usize), Fault>
    requires { 0 < length rest.bytes.now }
    ensures token { cut_at result rest.entry.bytes.now rest.entry.place ≡ token rest.entry.bytes.now rest.entry.place }
    ensures inside { IfOk result (λ t. t.1 ≤ length rest.entry.bytes.now) }
    ensures brief { IfOk result (λ t. digits t.0 ≤ 3) }
{
    match rest.bytes[0] as char {
        'a'..='z' | 'A'..='Z' => word_at(rest),
        '0'..='9' => number_at(rest),
        _ => sign_at(rest),
    }
}

// Skips the separators at the front of what is left of a text, and cuts one token off.
pub(crate) fn next_token<'a>(text: Rest<'a>) -> Cut<'a>
    ensures items { ahead_of result.next (items result.rest.bytes.now result.rest.place) ≡ items text.entry.bytes.now text.entry.place }
    ensures end { ends_at result.rest ≡ ends_at text.entry }
    ensures shorter { left_of result.next (length result.rest.bytes.now) ≤ length text.entry.bytes.now }
    ensures brief { digits_in result.next ≤ 3 }
{
    let rest = text.after(spaces(text.bytes));
    if rest.bytes.is_empty() {
        return Cut { next: None, rest };
    }
    match token_at(rest) {
        Ok((token, size)) => Cut {
            next: Some(Ok(Spot {
                token,
                place: rest.place,
            })),
            rest: rest.after(size),
        },
        // After a fault of the bytes there is nothing to read.
        Err(fault) => Cut {
            next: Some(Err(fault)),
            rest: rest.after(rest.bytes.len()),
        },
    }
}
