//! A problem: what is declared, with a horizon, and a formula as one list of nodes.
#![tactic(auto)]

mod draft;
mod judge;
mod node;
mod part;
mod problem;
mod sort;

pub use draft::{Draft, MOST_PARTS, Room};
pub use node::{Comparison, Constant, Infix, Node, Operator, Prefix, Quantifier, Test, Turn};
pub use part::Part;
pub use problem::Problem;
pub use sort::{Kind, MOST_PAST, MOST_VARIABLES, Misfit, Sort};
