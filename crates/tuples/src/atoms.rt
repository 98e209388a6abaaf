ghost use Rattle.std.specs.Prelude.{◌≤◌};

mod calls;

// The most atoms.
pub const MOST_ATOMS: usize = 8;

// How many atoms there are.
#[derive(Clone, Copy)]
pub struct Atoms {
    count: usize,
    ghost some: { 1 ≤ count },
    ghost few: { count ≤ 8 },
}
