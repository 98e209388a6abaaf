ghost use Rattle.std.specs.Prelude.{◌≡◌, ◌≤◌, length};
ghost use Rattle.lasso.specs.Lassos.{Fewest};
ghost use Rattle.trace.specs.Tables.{most_places, most_states, holds, Wide, NoneOutside};

use super::table::Table;
use lasso::Shape;

mod calls;

// A lasso without open values that has the fewest states among all lassos of its behaviour.
#[derive(PartialEq, Eq, Drop)]
pub struct Trace {
    places: usize,
    shape: Shape,
    held: Table,
    ghost few_places: { places ≤ most_places },
    ghost few_states: { shape.states ≤ most_states },
    ghost tall: { length held ≡ most_states },
    ghost wide: { Wide held },
    ghost none_outside: { NoneOutside places shape.states held },
    ghost fewest: { Fewest shape.states shape.loop_start (holds held) },
}
