//! Lassos: instants of an endless path, states of the lasso, the one crossing between them, and Kleene values.
#![tactic(auto)]

mod shape;
mod time;
mod value;

pub use shape::Shape;
pub use time::{Instant, State};
pub use value::Value;
