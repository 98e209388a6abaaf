//! Names, and the one way to look a name up in a list of anything that has one.
#![tactic(auto)]

mod find;
mod name;

pub use find::{Named, lookup};
pub use name::{MOST_BYTES, Name};
