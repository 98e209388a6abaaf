ghost use Rattle.std.specs.Prelude.{ℕ, ◌-◌, ◌<◌, ◌≤◌};
ghost use Rattle.lasso.specs.declared.value.Value.{Value as ValueOf};
ghost use Rattle.meaning.specs.Rows.{RowIs, back, forth, round};
ghost use Rattle.rows.specs.Steps.{StepsBy};

use super::super::window::{MOST_INSTANTS, Window};
use super::Row;
use lasso::Value;

impl Row {
    // A walk back by steps, once round the last period for what follows the window, and then over all of it.
    pub(crate) fn walked_back<F: Fn(usize, Value) -> Value>(
        window: Window,
        seed: Value,
        step: F,
    ) -> Row
        requires { (i : ℕ) (v : ValueOf) → i < window.instants → F.pre step i v }
        ensures { (f : ℕ → ValueOf → ValueOf) → StepsBy (F.post step) f → RowIs window.instants result.values (round window.instants window.period f seed) }
    {
        let end = window.instants();
        let start = end - window.period();
        // Tried: `fold` over the same range. The library's lemmas on folds know no `rev`, and no proof closed.
        let mut next = seed;
        'round: for i in (start..end).rev() {
            next = step(i, next);
        }
        Row::filled_back(end, next, step)
    }

    // All values of a walk back by steps from an instant, at which it is `seed`.
    fn filled_back<F: Fn(usize, Value) -> Value>(end: usize, seed: Value, step: F) -> Row
        requires few { end ≤ 85 }
        requires step { (i : ℕ) (v : ValueOf) → i < end → F.pre step i v }
        ensures { (f : ℕ → ValueOf → ValueOf) → StepsBy (F.post step) f → RowIs end result.values (λ i. back f seed (end - i) i) }
    {
        // By index, each value from the one after it: in a loop over `iter_mut().enumerate()` no invariant can name the array that is written.
        let mut next = seed;
        let mut values = [Value::No; MOST_INSTANTS];
        'fill: for i in (0..end).rev() {
            next = step(i, next);
            values[i] = next;
        }
        Row { values }
    }

    // All values of a walk forth by steps from the first instant, before which it is `seed`.
    pub(crate) fn walked_forth<F: Fn(usize, Value) -> Value>(
        window: Window,
        seed: Value,
        step: F,
    ) -> Row
        requires { (i : ℕ) (v : ValueOf) → i < window.instants → F.pre step i v }
        ensures { (f : ℕ → ValueOf → ValueOf) → StepsBy (F.post step) f → RowIs window.instants result.values (forth f seed) }
    {
        // By index, as above. Tried: one function for both, of the instants as an iterator. That each is below 85 was left to show.
        let mut last = seed;
        let mut values = [Value::No; MOST_INSTANTS];
        'fill: for i in 0..window.instants() {
            last = step(i, last);
            values[i] = last;
        }
        Row { values }
    }
}
