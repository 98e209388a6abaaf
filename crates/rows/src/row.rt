ghost use Rattle.std.specs.Prelude.{◌≡◌, length};

use super::window::MOST_INSTANTS;
use lasso::Value;

mod calls;
mod filled;
mod future;
mod operators;
mod past;
mod pointwise;
mod shifts;
mod walks;

// The values of a formula, one an instant. An array and no `Vec`: evaluation may not run out of memory.
#[derive(Clone, Copy)]
pub struct Row {
    values: [Value; MOST_INSTANTS],
    ghost whole: { length values ≡ 85 },
}
