//! A stack with a limit, over a slice that is lent to it, for every kind of entry.
#![tactic(auto)]

mod stack;

pub use stack::{Full, Stack};
