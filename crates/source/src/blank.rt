ghost use Rattle.std.specs.Prelude.{◌≡◌, ◌<◌, ◌≤◌, MatchResult};
ghost use Rattle.faults.specs.declared.Fault.TheVariants.{OutsideSource};
ghost use Rattle.trace.specs.Tables.{most_places};
ghost use Rattle.source.specs.Meanings.{Means};
ghost use Rattle.source.specs.Sources.{blank_meaning, nothing_known};

use super::{MOST_PLACES, Source};
use faults::Fault;
use lasso::{State, Value};

// The source that knows nothing of so many places.
#[derive(Clone, Copy)]
pub struct Blank {
    places: usize,
    ghost few: { places ≤ most_places },
}

impl Blank {
    // The blank source of so many places; over 768 it is refused.
    pub fn new(places: usize) -> Result<Blank, Fault>
        ensures { MatchResult result (λ b. Means (blank_meaning b.places) places nothing_known) (λ f. (f ≡ OutsideSource) × (768 < places)) }
    {
        if places > MOST_PLACES {
            return Err(Fault::OutsideSource);
        }
        Ok(Blank { places })
    }
}

impl Source for Blank {
    ghost meaning = { λ b. blank_meaning b.places };

    fn places(&self) -> usize {
        self.places
    }

    fn states(&self) -> usize {
        1
    }

    fn loop_start(&self) -> State {
        State(0)
    }

    fn value(&self, _place: usize, _state: State) -> Value {
        Value::Open
    }
}
