//! Traces: lassos without open values, each with the fewest states for its behaviour.
#![tactic(auto)]

mod fewest;
mod table;
mod trace;

pub use table::{MOST_PLACES, MOST_STATES, Table, blank};
pub use trace::Trace;
