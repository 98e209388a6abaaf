ghost use Rattle.std.specs.Prelude.{◌≡◌};
ghost use Rattle.meaning.specs.Tables.{table_at};
ghost use Rattle.meaning.specs.Rows.{RowIs, holding, since_row, historically_row, once_row};

use super::super::window::Window;
use super::Row;
use lasso::{Instant, Value};

impl Row {
    // The second holds, or the first does and the same was so at the instant before.
    pub(crate) fn since(&self, other: &Row, window: Window) -> Row
        ensures { RowIs window.instants result.values (since_row (table_at self.now.values) (table_at other.now.values)) }
    {
        Row::walked_forth(window, Value::No, |i, last| self.holding(other, i, last))
    }

    // Yes before the first instant, as long as the row is.
    pub(crate) fn historically(&self, window: Window) -> Row
        ensures { RowIs window.instants result.values (historically_row (table_at self.now.values)) }
    {
        Row::walked_forth(
            window,
            Value::Yes,
            |i, last| self.value(Instant(i)).smaller(last),
        )
    }

    // No before the first instant, until the row is more.
    pub(crate) fn once(&self, window: Window) -> Row
        ensures { RowIs window.instants result.values (once_row (table_at self.now.values)) }
    {
        Row::walked_forth(
            window,
            Value::No,
            |i, last| self.value(Instant(i)).greater(last),
        )
    }

    // The second value at an instant, or the first and that of the instant that is walked from.
    pub(crate) fn holding(&self, other: &Row, at: usize, from: Value) -> Value
        ensures { result ≡ holding (table_at self.now.values) (table_at other.now.values) at from }
    {
        let held = self.value(Instant(at)).smaller(from);
        other.value(Instant(at)).greater(held)
    }
}
