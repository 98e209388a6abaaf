ghost use Rattle.meaning.specs.Tables.{table_at};
ghost use Rattle.meaning.specs.Rows.{RowIs, until_row, always_row, eventually_row};

use super::super::window::Window;
use super::Row;
use lasso::{Instant, Value};

impl Row {
    // The second holds, or the first does and the same is so at the next instant.
    pub(crate) fn until(&self, other: &Row, window: Window) -> Row
        ensures { RowIs window.instants result.values (until_row window.instants window.period (table_at self.now.values) (table_at other.now.values)) }
    {
        Row::walked_back(window, Value::No, |i, next| self.holding(other, i, next))
    }

    // Yes beyond the window, as long as the row is.
    pub(crate) fn always(&self, window: Window) -> Row
        ensures { RowIs window.instants result.values (always_row window.instants window.period (table_at self.now.values)) }
    {
        Row::walked_back(
            window,
            Value::Yes,
            |i, next| self.value(Instant(i)).smaller(next),
        )
    }

    // No beyond the window, until the row is more.
    pub(crate) fn eventually(&self, window: Window) -> Row
        ensures { RowIs window.instants result.values (eventually_row window.instants window.period (table_at self.now.values)) }
    {
        Row::walked_back(
            window,
            Value::No,
            |i, next| self.value(Instant(i)).greater(next),
        )
    }
}
