ghost use Rattle.std.specs.Prelude.{ℕ, ◌<◌};
ghost use Rattle.meaning.specs.Tables.{table_at};

use super::super::window::{MOST_INSTANTS, Window};
use super::Row;
use lasso::Value;

impl Row {
    // At each instant of a window, what a function gives for it.
    pub(crate) fn filled<F: Fn(usize) -> Value>(window: Window, value_at: F) -> Row
        requires { (i : ℕ) → i < window.instants → F.pre value_at i }
        ensures { (i : ℕ) → i < window.instants → F.post value_at i (table_at result.values i) }
    {
        // By index: in a loop over `iter_mut().enumerate()` no invariant can name the array that is written. `array::from_fn` with a test in
        // its closure proves, but the closure states more lines than the loop has, and with all three fills verdicts took three times as long.
        // Tuples and the evaluator fill their own: a shared fill would be public, and ask its callers for a closure that may be called.
        let mut values = [Value::No; MOST_INSTANTS];
        'fill: for i in 0..window.instants() {
            values[i] = value_at(i);
        }
        Row { values }
    }
}
