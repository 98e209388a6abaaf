//! Numbers in groups of seven bits, lowest first, in their shortest form: at most three groups.
#![tactic(auto)]

mod entry;
mod read;
mod reader;
mod write;

pub use entry::Entry;
pub use read::MOST_BYTES;
pub use reader::Reader;
pub use write::{number_len, write_number};
