ghost use Rattle.std.specs.Prelude.{◌≡◌, length};
ghost use Rattle.relations.specs.Declarations.{atoms_of, relations_of};

use formulas::Scope;
use problem::Room;
use relations::Declarations;

mod calls;

// All memory that reading a problem takes.
#[derive(Drop)]
pub struct Space {
    declared: Declarations,
    room: Room,
    scope: Scope,
    ghost no_atom: { length (atoms_of declared) ≡ 0 },
    ghost no_relation: { length (relations_of declared) ≡ 0 },
}
