ghost use Rattle.std.specs.Prelude.{◌≡◌, length};

use lasso::Value;
use names::Name;

mod calls;
mod parts;

// Whether a relation may differ from state to state.
#[derive(Clone, Copy, PartialEq, Eq, Debug)]
pub enum Mutability {
    Fixed,
    Mutable,
}

// How many atoms a tuple of a relation has.
#[derive(Clone, Copy, PartialEq, Eq, Debug)]
pub enum Arity {
    One,
    Two,
}

// A number of atoms that no tuple has.
#[derive(Clone, Copy, PartialEq, Eq, Debug)]
pub struct NotAnArity;

// An atom, by its name.
#[derive(Clone, Copy)]
pub struct Atom {
    name: Name,
}

// A relation; of each tuple, whether it is always in, free, or never in: an array and no `Vec`, since to copy it asks for no memory.
#[derive(Clone, Copy)]
pub struct Relation {
    name: Name,
    mutability: Mutability,
    arity: Arity,
    bounds: [Value; 64],
    ghost whole: { length bounds ≡ 64 },
}
