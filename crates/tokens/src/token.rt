use names::Name;
use problem::{Constant, Infix, Operator, Prefix, Turn};

// A reserved word.
#[derive(Clone, Copy)]
pub enum Word {
    Atoms,
    Rel,
    Var,
    Horizon,
    Formula,
    Prefix(Prefix),
    Infix(Infix),
    All,
    Some,
    No,
    In,
    Constant(Constant),
}

#[derive(Clone, Copy)]
pub enum Sign {
    Semicolon,
    Colon,
    OpenBrace,
    CloseBrace,
    OpenParen,
    CloseParen,
    OpenBracket,
    CloseBracket,
    Bar,
    Equal,
    Prime,
    Turn(Turn),
    Operator(Operator),
}

// A token; a name, a word and a number borrow the text.
#[derive(Clone, Copy)]
pub enum Token<'a> {
    Name(&'a [u8]),
    Word(Word, &'a [u8]),
    Number(&'a [u8]),
    Sign(Sign),
    End,
}

// A token and where it begins.
#[derive(Clone, Copy)]
pub struct Spot<'a> {
    pub token: Token<'a>,
    pub place: usize,
}

// A name and where it stands.
#[derive(Clone, Copy)]
pub struct PlacedName {
    pub name: Name,
    pub place: usize,
}

// A number and where it stands.
// Two structs and not one with a parameter: a name is spoken of by its spelling, a number by its value.
#[derive(Clone, Copy)]
pub struct PlacedNumber {
    pub number: usize,
    pub place: usize,
}
