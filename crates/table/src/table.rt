ghost use Rattle.std.specs.Prelude.{◌≡◌, ◌≤◌, length};
ghost use Rattle.table.specs.Rows.{Wide, NoneBeyond};

use lasso::{Shape, Value};
use source::MOST_PLACES;

mod calls;

// The most states of a table.
pub const MOST_STATES: usize = 17;

// The value of each place in each state of a lasso; open beyond the counts. Arrays and no `Vec`: to evaluate may not run out of memory.
#[derive(Clone, Copy)]
pub struct Table {
    places: usize,
    shape: Shape,
    rows: [[Value; MOST_PLACES]; MOST_STATES],
    ghost few_places: { places ≤ 768 },
    ghost few_states: { shape.states ≤ 17 },
    ghost tall: { length rows ≡ 17 },
    ghost wide: { Wide rows },
    ghost none_beyond: { NoneBeyond places shape.states rows },
}
