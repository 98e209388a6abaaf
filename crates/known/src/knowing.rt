ghost use Rattle.std.specs.Prelude.{◌≡◌, ◌<◌};
ghost use Rattle.lasso.specs.declared.value.Value.TheVariants.{Open};
ghost use Rattle.problem.specs.Problems.{sizes_in};
ghost use Rattle.source.specs.Meanings.{Meaning};
ghost use Rattle.places.specs.Places.{place_count};
ghost use Rattle.places.specs.Asked.{BoundAt};
ghost use Rattle.table.specs.Tables.{path_of, Copied};
ghost use Rattle.known.specs.Known.{Fits, IsKnown};
ghost use Rattle.known.specs.States.{ToldOnce, KnownIn, StateKnown};

use super::told::Told;
use lasso::{State, Value};
use places::{bounds, is_fixed};
use problem::Problem;
use table::Table;

// What is known of each place in each state: what the bounds settle, and else what is told.
pub fn known_table(problem: &Problem, told: &Table) -> Table
    ensures known { (m : Meaning) → Copied m told.now → Fits problem.now m → IsKnown problem.now m (path_of result) }
    ensures places { result.places ≡ told.now.places }
    ensures shape { result.shape ≡ told.now.shape }
{
    let mut known = *told;
    let told = Told {
        problem,
        table: told,
    };
    'states: for s in 0..known.shape().states() {
        told.know_state(State(s), &mut known);
    }
    known
}

impl Told<'_> {
    // Writes what is known of each place in one state.
    fn know_state(&self, state: State, known: &mut Table)
        requires places { known.old.places ≡ self.now.table.now.places }
        requires shape { known.old.shape ≡ self.now.table.now.shape }
        requires state { state.0 < self.now.table.now.shape.states }
        ensures { StateKnown self.now.problem.now self.now.table.now state.0 self.now.table.now.places known.old known.new }
    {
        'places: for place in 0..self.table.places() {
            known.write(place, state, self.known_value(place, state));
        }
    }

    // What is known of a place in a state.
    #[tactic(auto, using(crate::proofs::Knowledge::settled_known))]
    fn known_value(&self, place: usize, state: State) -> Value
        ensures { place < place_count (sizes_in self.now.problem.now) → KnownIn self.now.problem.now self.now.table.now state.0 place result }
    {
        match bounds(self.problem, place) {
            Some(Value::Open) => self.told_value(place, state),
            Some(bound) => bound,
            None => Value::Open,
        }
    }

    // What is told of a place that the bounds leave open: of a mutable place in this state, of a fixed one in any.
    #[tactic(auto, using(crate::proofs::Knowledge::fixed_known, crate::proofs::Knowledge::mutable_known))]
    fn told_value(&self, place: usize, state: State) -> Value
        requires { BoundAt self.now.problem.now place Open }
        ensures { place < place_count (sizes_in self.now.problem.now) → KnownIn self.now.problem.now self.now.table.now state.0 place result }
    {
        match is_fixed(self.problem, place) {
            Some(true) => self.told_once(place),
            Some(false) => self.table.value(place, state),
            None => Value::Open,
        }
    }

    // The first value of a place that is not open; open where all states tell it open.
    fn told_once(&self, place: usize) -> Value
        ensures { ToldOnce self.now.table.now place result }
    {
        (0..self.table.shape().states())
            .map(|s| self.table.value(place, State(s)))
            .find(|value| *value != Value::Open)
            .unwrap_or(Value::Open)
    }
}
