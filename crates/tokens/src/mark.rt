// A token that stands for nothing but itself.
#[derive(Clone, Copy, PartialEq, Eq, Debug)]
pub enum Mark {
    Semicolon,
    Colon,
    OpenBrace,
    CloseBrace,
    OpenParen,
    CloseParen,
    CloseBracket,
    Bar,
    Prime,
    Atoms,
    Horizon,
    Formula,
    End,
}
