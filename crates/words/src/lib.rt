//! Traces, sources and refusals in words: what programs print of them.
#![tactic(auto)]

ghost use Rattle.std.specs.Prelude.{◌≡◌, if◌then◌else◌, nat_eq};

mod held;
mod known;
mod list;
mod refusal;

pub use held::{HeldIn, InWords};
pub use known::{ChangedAt, KnownAt};
pub use refusal::{Refusal, refuse};

// The word for one of a kind, or for none or several.
pub fn noun(count: usize, one: &'static str, several: &'static str) -> &'static str
    ensures { result.now ≡ (if nat_eq count 1 then one.now else several.now) }
{
    if count == 1 { one } else { several }
}
