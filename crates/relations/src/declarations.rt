ghost use Rattle.std.specs.Prelude.{◌≤◌, vec_len, vec_capacity};

use super::relation::{Atom, Relation};

mod calls;

// The most atoms of a problem.
pub const MOST_ATOMS: usize = 8;

// The most relations of a problem.
pub const MOST_RELATIONS: usize = 12;

// There is no room for one more.
#[derive(Clone, Copy, PartialEq, Eq, Debug)]
pub struct NoRoom;

// The atoms and relations that are declared so far, numbered from 0, with room for as many as there may be.
#[derive(Drop)]
pub struct Declarations {
    atoms: Vec<Atom>,
    relations: Vec<Relation>,
    ghost few_atoms: { vec_len atoms ≤ 8 },
    ghost few_relations: { vec_len relations ≤ 12 },
    ghost atom_room: { 8 ≤ vec_capacity atoms },
    ghost relation_room: { 12 ≤ vec_capacity relations },
}
