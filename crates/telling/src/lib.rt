//! What a source tells of a place at an instant, for every source.
#![tactic(auto)]

ghost use Rattle.std.specs.Prelude.{◌≡◌};
ghost use Rattle.source.specs.Meanings.{told_at};

use lasso::{Instant, Shape, Value};
use source::Source;

// The value of a place at an instant of the endless path.
pub fn told_at<S: Source>(source: &S, place: usize, instant: Instant) -> Value
    ensures { result ≡ told_at (S.Source.meaning source.now) place instant.0 }
{
    let shape = Shape::new(source.states(), source.loop_start()).unwrap();
    source.value(place, shape.fold(instant))
}
