ghost use Rattle.std.specs.Prelude.{◌≡◌};
ghost use Rattle.source.specs.Meanings.{Kept, Means};
ghost use Rattle.source.specs.Sources.{trace_meaning, all_known};

use super::Source;
use lasso::{State, Value};
use trace::Trace;

impl Source for Trace {
    ghost meaning = { λ t. trace_meaning t };

    #[tactic(auto, using(crate::proofs::Paths::state_below))]
    fn places(&self) -> usize
        ensures value { result ≡ self.now.places }
        ensures kept { Kept (trace_meaning self.now) }
        ensures path { Means (trace_meaning self.now) self.now.places (all_known self.now) }
    {
        self.places()
    }

    fn states(&self) -> usize {
        self.states()
    }

    fn loop_start(&self) -> State {
        self.loop_start()
    }

    fn value(&self, place: usize, state: State) -> Value {
        if place >= self.places() || state.0 >= self.states() {
            return Value::Open;
        }
        self.held(place, state).into()
    }
}
