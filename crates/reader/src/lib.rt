//! Reads a problem text into a problem, or refuses it with one fault.
#![tactic(auto)]

mod filling;
mod refusal;
mod space;
mod text;

pub use declaring::MOST_TEXT;
pub use filling::{read, read_into};
pub use refusal::Refusal;
pub use space::Space;
