//! What is known of a problem by a source: whether the two fit, and the table of what is known.
#![tactic(auto)]

mod clash;
mod fitting;
mod knowing;
mod told;

pub use fitting::fit;
pub use knowing::known_table;
