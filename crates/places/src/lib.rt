//! The places of a problem: one tuple of one relation each, numbered through all relations.
#![tactic(auto)]

mod asked;
mod members;
mod numbers;

pub use asked::{bounds, is_fixed};
pub use members::{Members, atoms_of};
pub use numbers::{Tuple, at_place, first_place, place_of, places};
