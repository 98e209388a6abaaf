ghost use Rattle.std.specs.Prelude.{◌≡◌, ◌≤◌, vec_len, vec_capacity};

use names::Name;
use problem::Draft;

mod brackets;
mod calls;

pub use brackets::{close, open};
pub use calls::Meant;

// A bound variable.
#[derive(Clone, Copy)]
pub struct Variable {
    name: Name,
}

// A bracket that is open, and where it stands.
#[derive(Clone, Copy)]
pub struct Bracket {
    pub place: usize,
}

// Room for all variables that may be bound at once.
#[derive(Drop)]
pub struct Scope {
    variables: Vec<Variable>,
    ghost none: { vec_len variables ≡ 0 },
    ghost room: { 4 ≤ vec_capacity variables },
}

// A formula while it is read: its nodes so far, the variables in scope, and how many parts were counted.
#[derive(Drop)]
pub struct Sketch {
    draft: Draft,
    scope: Vec<Variable>,
    parts: usize,
    ghost room: { 4 ≤ vec_capacity scope },
}
