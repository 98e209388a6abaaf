ghost use Rattle.std.specs.Prelude.{◌≤◌, length};
ghost use Rattle.relations.specs.Declarations.{atoms_of, relations_of};
ghost use Rattle.relations.specs.Free.{free_places};

use super::declarations::Declarations;
pub use super::free::Unfit;

mod calls;

// The most states of a horizon.
pub const MOST_HORIZON: usize = 8;

// The most free places, the mutable ones counted for each state of the horizon.
pub const MOST_FREE: usize = 256;

// Declarations and a horizon that go together.
#[derive(Drop)]
pub struct Signature {
    declared: Declarations,
    horizon: usize,
    ghost some_atom: { 1 ≤ length (atoms_of declared) },
    ghost some_state: { 1 ≤ horizon },
    ghost few_states: { horizon ≤ 8 },
    ghost few_free: { free_places (length (atoms_of declared)) (relations_of declared) horizon ≤ 256 },
}
