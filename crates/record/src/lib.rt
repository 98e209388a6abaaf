//! Records: a trace as bytes, written and read.
#![tactic(auto)]

mod read;
mod write;

pub use read::read_record;
pub use write::write_record;
