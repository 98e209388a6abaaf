//! Reads the formula of a problem text, token by token, into the nodes of a draft.
#![tactic(auto)]

mod expression;
mod formula;
mod parser;
mod sketch;
mod start;
mod wish;

pub use parser::{MOST_BRACKETS, MOST_LEVELS, Nesting, Parser};
pub use sketch::{Bracket, Scope, Sketch};
