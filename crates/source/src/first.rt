ghost use Rattle.std.specs.Prelude.{◌≡◌, ◌<◌, ◌≤◌, MatchResult};
ghost use Rattle.faults.specs.declared.Fault.TheVariants.{OutsideSource};
ghost use Rattle.source.specs.Meanings.{Means};
ghost use Rattle.source.specs.Sources.{first_meaning, first_known};

use super::Source;
use faults::Fault;
use lasso::{Instant, State, Value};
use trace::Trace;

// The most instants of a trace, or of a log, that are told.
pub const MOST_INSTANTS: usize = 16;

// How many instants of a trace are told: 0 to 16.
#[derive(Clone, Copy)]
pub struct FirstInstants {
    count: usize,
    ghost few: { count ≤ 16 },
}

// The first instants of a trace, as instants of its endless path, and then nothing known.
#[derive(Clone, Copy)]
pub struct Prefix<'t> {
    trace: &'t Trace,
    first: FirstInstants,
}

impl FirstInstants {
    // So many first instants; over 16 they are refused.
    pub fn new(count: usize) -> Result<FirstInstants, Fault>
        ensures { MatchResult result (λ m. m.count ≡ count) (λ f. (f ≡ OutsideSource) × (16 < count)) }
    {
        if count > MOST_INSTANTS {
            return Err(Fault::OutsideSource);
        }
        Ok(FirstInstants { count })
    }

    // The source that tells these instants of a trace.
    #[tactic(auto, using(crate::proofs::Paths::state_first, crate::proofs::Paths::stays_open))]
    pub fn of<'t>(self, trace: &'t Trace) -> Prefix<'t>
        ensures same { first_meaning result.trace.now result.first.count ≡ first_meaning trace.now self.count }
        ensures path { Means (first_meaning result.trace.now result.first.count) trace.now.places (first_known trace.now self.count) }
    {
        Prefix { trace, first: self }
    }
}

impl<'t> Source for Prefix<'t> {
    ghost meaning = { λ s. first_meaning s.trace.now s.first.count };

    fn places(&self) -> usize {
        self.trace.places()
    }

    fn states(&self) -> usize {
        self.first.count + 1
    }

    fn loop_start(&self) -> State {
        State(self.first.count)
    }

    fn value(&self, place: usize, state: State) -> Value {
        if place >= self.trace.places() || state.0 >= self.first.count {
            return Value::Open;
        }
        self.trace.held_at(place, Instant(state.0)).into()
    }
}
