//! The values of a formula at each instant of a window, and the row of an operator from the rows of its parts.
#![tactic(auto)]

mod row;
mod window;

pub use row::Row;
pub use window::{MOST_INSTANTS, Window};
