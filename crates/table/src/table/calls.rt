ghost use Rattle.std.specs.Prelude.{◌≡◌, ℕ, ◌<◌, ◌≤◌, ◌⊎◌, length, MatchOption, slice_index_or};
ghost use Rattle.lasso.specs.declared.value.Value.TheVariants.{Open};
ghost use Rattle.table.specs.Rows.{value_at, Wide};
ghost use Rattle.table.specs.Tables.{value_in, Blank, Written};

use super::{MOST_STATES, Table};
use lasso::{Shape, State, Value};
use source::MOST_PLACES;

impl Table {
    // A table of so many places over a shape, all open; none where the limits are not kept.
    pub fn blank(places: usize, shape: Shape) -> Option<Table>
        ensures { MatchOption result ((768 < places) ⊎ (17 < shape.states)) (λ t. Blank places shape t) }
    {
        if places > MOST_PLACES || shape.states() > MOST_STATES {
            return None;
        }
        Some(all_open(places, shape))
    }

    // How many places there are, at most 768.
    pub fn places(&self) -> usize
        ensures value { result ≡ self.now.places }
        ensures few { result ≤ 768 }
    {
        self.places
    }

    // The states and the loop start, at most 17 states.
    pub fn shape(&self) -> Shape
        ensures value { result ≡ self.now.shape }
        ensures few { result.states ≤ 17 }
    {
        self.shape
    }

    // The value of a place in a state; open beyond the counts.
    pub fn value(&self, place: usize, state: State) -> Value
        ensures value { result ≡ value_in self.now state.0 place }
        ensures beyond { (self.now.shape.states ≤ state.0) ⊎ (self.now.places ≤ place) → result ≡ Open }
    {
        self.row(state).get(place).copied().unwrap_or(Value::Open)
    }

    // The values of the places in a state; none from state 17 on.
    pub fn row(&self, state: State) -> &[Value]
        ensures { (q : ℕ) → slice_index_or result.now q Open ≡ value_in self.now state.0 q }
    {
        self.rows.get(state.0).map_or(&[], |row| &row[..])
    }

    // Writes the value of a place in a state; beyond the counts nothing alters.
    pub fn write(&mut self, place: usize, state: State, value: Value)
        ensures { Written place state.0 value self.old self.new }
    {
        if place < self.places && state.0 < self.shape.states() {
            self.rows[state.0][place] = value;
        }
    }
}

// The table in which all is open, within the limits.
fn all_open(places: usize, shape: Shape) -> Table
    requires places { places ≤ 768 }
    requires states { shape.states ≤ 17 }
    ensures { Blank places shape result }
{
    Table {
        places,
        shape,
        rows: open_rows(),
    }
}

// Rows in which all is open.
fn open_rows() -> [[Value; MOST_PLACES]; MOST_STATES]
    ensures all { (s p : ℕ) → value_at result s p ≡ Open }
    ensures tall { length result ≡ 17 }
    ensures wide { Wide result }
{
    filled(Value::Open)
}

// Rows of one value.
// Tried: as part of the above. The search leaves `all` of seventeen literal rows, and by hand a wrong value fails in the proof, not at the code.
fn filled(value: Value) -> [[Value; MOST_PLACES]; MOST_STATES]
    ensures all { value ≡ Open → (s p : ℕ) → value_at result s p ≡ Open }
    ensures tall { length result ≡ 17 }
    ensures wide { Wide result }
{
    [[value; MOST_PLACES]; MOST_STATES]
}
