//! The tokens of a problem text, which borrow it, one at a time.
#![tactic(auto)]

mod lexer;
mod mark;
mod rest;
mod token;
mod tokens;

pub use mark::Mark;
pub use token::{PlacedName, PlacedNumber, Sign, Spot, Token, Word};
pub use tokens::Tokens;
