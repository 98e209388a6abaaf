//! The value of a problem's formula on the endless path of a table.
#![tactic(auto)]

mod evaluation;
mod evaluator;
mod expression;
mod few;
mod formula;
mod gathering;
mod keeping;
mod kept;
mod leaf;
mod lookup;
mod parts;
mod setting;

pub use evaluation::evaluate;
