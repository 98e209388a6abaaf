//! Reads what a problem text declares: atoms, relations with their bounds, and the horizon.
#![tactic(auto)]

mod declare;
mod known;
mod reader;
mod sets;
mod tuples;

pub use declare::{read_declarations, read_horizon};
pub use reader::Reader;
pub use sets::MOST_TEXT;
