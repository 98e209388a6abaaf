//! What is known of places in the states of a lasso, as a plain table of three values.
#![tactic(auto)]

mod copying;
mod table;

pub use copying::copied;
pub use source::MOST_PLACES;
pub use table::{MOST_STATES, Table};
