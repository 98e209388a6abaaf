ghost use Rattle.std.specs.Prelude.{◌≡◌, length};

use relations::TupleSet;

mod calls;

// A set of tuples as it was read, with the place where each stands first. The set stays whole beside the places, since a
// relation is made from it.
#[derive(Clone, Copy)]
pub struct Tuples {
    set: TupleSet,
    places: [usize; 64],
    ghost tall: { length places ≡ 64 },
}
