//! Sets of tuples in three values: what expressions are, and what formulas of them are.
#![tactic(auto)]

mod atoms;
mod packed;
mod tuples;

pub use atoms::{Atoms, MOST_ATOMS};
pub use packed::Packed;
pub use tuples::{Tuples, quantified};
