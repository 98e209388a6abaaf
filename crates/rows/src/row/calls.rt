ghost use Rattle.std.specs.Prelude.{◌≡◌, replicate, slice_set};
ghost use Rattle.lasso.specs.Lassos.{state_at};
ghost use Rattle.meaning.specs.Tables.{table_at};
ghost use Rattle.meaning.specs.Rows.{RowIs};

use super::super::window::{MOST_INSTANTS, Window};
use super::Row;
use lasso::{Instant, Shape, Value};

impl Row {
    // No at every instant.
    pub fn blank() -> Row
        ensures { result.values ≡ replicate 85 Value.No }
    {
        Row {
            values: [Value::No; MOST_INSTANTS],
        }
    }

    // At each instant of a window, the value of its state.
    pub fn spread(states: &[Value], shape: Shape, window: Window) -> Row
        ensures { RowIs window.instants result.values (λ i. table_at states.now (state_at shape.states shape.loop_start i)) }
    {
        Row::filled(window, |i| state_value(states, shape, Instant(i)))
    }

    // The value at an instant; no from instant 85 on.
    pub fn value(&self, instant: Instant) -> Value
        ensures { result ≡ table_at self.now.values instant.0 }
    {
        self.values.get(instant.0).copied().unwrap_or(Value::No)
    }

    // Writes the value at an instant; from instant 85 on nothing alters.
    pub fn write(&mut self, instant: Instant, value: Value)
        ensures { self.new.values ≡ slice_set self.old.values instant.0 value }
    {
        // By index: std says of a slice's `get_mut` what is there, and nothing of what the slice is after a write.
        if instant.0 < self.values.len() {
            self.values[instant.0] = value;
        }
    }
}

// The value of the state at an instant; no where there is none.
fn state_value(states: &[Value], shape: Shape, instant: Instant) -> Value
    ensures { result ≡ table_at states.now (state_at shape.states shape.loop_start instant.0) }
{
    let state = shape.fold(instant);
    states.get(state.0).copied().unwrap_or(Value::No)
}
