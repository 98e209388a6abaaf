ghost use Rattle.std.specs.Prelude.{◌≡◌, ℕ, ◌<◌, ◌≤◌, true, false, ◌⊎◌, Decides, MatchOption};
ghost use Rattle.trace.specs.Tables.{Wide};
ghost use Rattle.trace.specs.Traces.{IsTrace, Fresh, held_in, behaviour, SameBehaviour};

use super::super::fewest::Lasso;
use super::super::table::{MOST_PLACES, MOST_STATES, Table, blank, none_outside};
use super::Trace;
use lasso::{Instant, Shape, State};

impl Trace {
    // The trace with no place and one state.
    pub fn fresh() -> Trace
        ensures { Fresh result }
    {
        Trace {
            places: 0,
            shape: Shape::one_state(),
            held: blank(),
        }
    }

    // The trace of these places, states and held places; none where a limit is not kept, something is held outside
    // the counts, or fewer states would do.
    pub fn new(places: usize, shape: Shape, held: Table) -> Option<Trace>
        ensures { MatchOption result (IsTrace places shape held → ⊥) (λ t. (t.places ≡ places) × (t.shape ≡ shape) × (t.held ≡ held)) }
    {
        if !is_trace(places, shape, &held) {
            return None;
        }
        Some(Trace {
            places,
            shape,
            held,
        })
    }

    // How many places there are, 0 to 768.
    pub fn places(&self) -> usize
        ensures value { result ≡ self.now.places }
        ensures few { result ≤ 768 }
    {
        self.places
    }

    // How many states there are, 1 to 8.
    pub fn states(&self) -> usize
        ensures value { result ≡ self.now.shape.states }
        ensures some { 1 ≤ result }
        ensures few { result ≤ 8 }
    {
        self.shape.states()
    }

    // The state that follows the last one.
    pub fn loop_start(&self) -> State
        ensures value { result.0 ≡ self.now.shape.loop_start }
        ensures below { result.0 < self.now.shape.states }
    {
        self.shape.loop_start()
    }

    // Whether a place is held in a state; outside the counts nothing is held.
    pub fn held(&self, place: usize, state: State) -> bool
        ensures inside { result ≡ held_in self.now state.0 place }
        ensures outside { (self.now.shape.states ≤ state.0) ⊎ (self.now.places ≤ place) → result ≡ false }
    {
        if state.0 >= self.shape.states() || place >= self.places {
            return false;
        }
        self.held[state.0][place]
    }

    // Whether a place is held at an instant of the endless path.
    pub fn held_at(&self, place: usize, instant: Instant) -> bool
        ensures { result ≡ behaviour self.now instant.0 place }
    {
        self.held(place, self.shape.fold(instant))
    }

    // What is held in each state.
    pub fn table(&self) -> &Table
        ensures { result.now ≡ self.now.held }
    {
        &self.held
    }

    // Whether two traces have the same behaviour: then they are one trace.
    #[tactic(auto, using(crate::proofs::One::one_value, crate::proofs::One::one_behaviour))]
    pub fn same_behaviour(&self, other: &Trace) -> bool
        ensures exact { Decides result (SameBehaviour self.now other.now) }
        ensures one { Decides result (self.now ≡ other.now) }
    {
        self == other
    }
}

// Whether this is a trace: the limits, nothing outside the counts, fewest states.
fn is_trace(places: usize, shape: Shape, held: &Table) -> bool
    ensures value { Decides result (IsTrace places shape held.now) }
    ensures wide { result ≡ true → Wide held.now }
{
    if places > MOST_PLACES || shape.states() > MOST_STATES {
        return false;
    }
    Lasso { shape, held }.is_fewest() && none_outside(held, places, shape.states())
}
