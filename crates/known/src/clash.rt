ghost use Rattle.std.specs.Prelude.{true, Decides, MatchOption};
ghost use Rattle.places.specs.Asked.{FixedAt};
ghost use Rattle.known.specs.Known.{Opposed};
ghost use Rattle.known.specs.States.{AgainstBounds, OpposedBefore, OpposedIn, YesAndNo, Shows, NoneBefore, FirstShown};

use super::told::Told;
use lasso::{Instant, State, Value};
use places::{bounds, is_fixed};
use std::ops::Range;

impl Told<'_> {
    // The first contradiction: the earliest instant at which one shows, and there the lowest place.
    // The states are the first instants, and what shows later shows in one of them already.
    #[tactic(auto, using(crate::proofs::Steps::below_next, crate::proofs::Steps::before_next))]
    pub(crate) fn first_clash(&self) -> Option<(Instant, usize)>
        ensures { MatchOption result (NoneBefore self.now.problem.now self.now.table.now self.now.table.now.shape.states) (λ f. FirstShown self.now.problem.now self.now.table.now f.0.0 f.1) }
    {
        // Nested loops left by a label with the first contradiction: the project asks for this form here, in the order of what is promised.
        let mut first = None;
        'search: for i in 0..self.table.shape().states() {
            'places: for place in 0..self.table.places() {
                if self.clashes(State(i), place) {
                    first = Some((Instant(i), place));
                    break 'search;
                }
            }
        }
        first
    }

    // Whether a contradiction shows in a state at a place.
    fn clashes(&self, state: State, place: usize) -> bool
        ensures { Decides result (Shows self.now.problem.now self.now.table.now state.0 place) }
    {
        self.against_bounds(state, place) || self.yes_and_no(state, place)
    }

    // Whether the bounds of a place are opposed to what is told of it in a state.
    fn against_bounds(&self, state: State, place: usize) -> bool
        ensures { Decides result (AgainstBounds self.now.problem.now self.now.table.now state.0 place) }
    {
        let told = self.table.value(place, state);
        bounds(self.problem, place).is_some_and(|bound| opposed(bound, told))
    }

    // Whether a fixed place is told yes in one state and no in another, up to a state.
    fn yes_and_no(&self, state: State, place: usize) -> bool
        ensures { Decides result (YesAndNo self.now.problem.now self.now.table.now state.0 place) }
    {
        self.has_fixed(place) && self.opposed_before(state, place)
    }

    // Whether there is a fixed place of this number.
    #[tactic(auto, using(crate::proofs::Places::fixed_decided))]
    fn has_fixed(&self, place: usize) -> bool
        ensures { Decides result (FixedAt self.now.problem.now place true) }
    {
        is_fixed(self.problem, place).unwrap_or(false)
    }

    // Whether what is told of a place in a state is opposed to what is told of it in an earlier one.
    #[tactic(auto, using(crate::proofs::Earlier::before_decided))]
    fn opposed_before(&self, state: State, place: usize) -> bool
        ensures { Decides result (OpposedBefore self.now.table.now state.0 place) }
    {
        self.opposed_in(0..state.0, place, self.table.value(place, state))
    }

    // Whether what is told of a place in some state of a range is opposed to a value.
    fn opposed_in(&self, mut states: Range<usize>, place: usize, value: Value) -> bool
        ensures { Decides result (OpposedIn self.now.table.now states.start states.end place value) }
    {
        states.any(|s| opposed(self.table.value(place, State(s)), value))
    }
}

// Whether one is yes and the other no.
fn opposed(a: Value, b: Value) -> bool
    ensures { Decides result (Opposed a b) }
{
    matches!((a, b), (Value::No, Value::Yes) | (Value::Yes, Value::No))
}
