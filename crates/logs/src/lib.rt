//! Logs: what was seen of a controller, over bytes that the log goes on borrowing.
#![tactic(auto)]

mod log;
mod marks;

pub use log::Log;
