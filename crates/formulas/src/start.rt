ghost use Rattle.std.specs.Prelude.{◌≡◌};
ghost use Rattle.std.specs.Option.{option_map};
ghost use Rattle.tokens.specs.Cursors.{cursor, head as head_item};
ghost use Rattle.formulas.specs.Starts.{head_of, start_of, infix_of, comparison_of, operator_of};
ghost use Rattle.formulas.specs.Bodies.{head_seen};

use names::Name;
use problem::{Comparison, Constant, Infix, Operator, Prefix, Turn};
use tokens::{Sign, Token, Tokens, Word};

// What a formula begins with; all else begins an expression.
#[derive(Clone, Copy, PartialEq, Eq, Debug)]
pub enum Start {
    Prefix(Prefix),
    Open,
    All,
    Some,
    No,
    Expression,
}

// What an expression begins with.
#[derive(Clone, Copy)]
pub enum Head {
    Name(Name),
    Constant(Constant),
    Turn(Turn),
    Open,
}

// What the next token begins, where a formula is wanted.
#[tactic(auto, unfolding(crate::specs::Starts::start_of))]
pub fn start_of(tokens: &Tokens<'_>) -> Start
    ensures { result ≡ start_of (head_item (cursor tokens.now)) }
{
    match tokens.token() {
        Some(Token::Word(Word::Prefix(prefix), _)) => Start::Prefix(prefix),
        Some(Token::Word(Word::All, _)) => Start::All,
        Some(Token::Word(Word::Some, _)) => Start::Some,
        Some(Token::Word(Word::No, _)) => Start::No,
        Some(Token::Sign(Sign::OpenParen)) => Start::Open,
        _ => Start::Expression,
    }
}

// The next token, if it stands between two formulas.
#[tactic(auto, unfolding(crate::specs::Starts::infix_of))]
pub fn infix_of(tokens: &Tokens<'_>) -> Option<Infix>
    ensures { result ≡ infix_of (head_item (cursor tokens.now)) }
{
    match tokens.token()? {
        Token::Word(Word::Infix(infix), _) => Some(infix),
        _ => None,
    }
}

// The next token, if it compares two expressions.
#[tactic(auto, unfolding(crate::specs::Starts::comparison_of))]
pub fn comparison_of(tokens: &Tokens<'_>) -> Option<Comparison>
    ensures { result ≡ comparison_of (head_item (cursor tokens.now)) }
{
    match tokens.token()? {
        Token::Word(Word::In, _) => Some(Comparison::In),
        Token::Sign(Sign::Equal) => Some(Comparison::Equal),
        _ => None,
    }
}

// The next token, if it combines two expressions.
#[tactic(auto, unfolding(crate::specs::Starts::operator_of))]
pub fn operator_of(tokens: &Tokens<'_>) -> Option<Operator>
    ensures { result ≡ operator_of (head_item (cursor tokens.now)) }
{
    match tokens.token()? {
        Token::Sign(Sign::Operator(operator)) => Some(operator),
        _ => None,
    }
}

// What the next token begins, where an expression is wanted; none where none may begin.
#[tactic(auto, unfolding(crate::specs::Starts::head_of))]
pub fn head_of(tokens: &Tokens<'_>) -> Option<Head>
    ensures { option_map head_seen result ≡ head_of (head_item (cursor tokens.now)) }
{
    match tokens.token()? {
        Token::Name(name) => Some(Head::Name(Name::new(name))),
        Token::Word(Word::Constant(constant), _) => Some(Head::Constant(constant)),
        Token::Sign(Sign::Turn(turn)) => Some(Head::Turn(turn)),
        Token::Sign(Sign::OpenBracket) => Some(Head::Open),
        _ => None,
    }
}
