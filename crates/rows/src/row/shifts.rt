ghost use Rattle.std.specs.Prelude.{◌≡◌};
ghost use Rattle.meaning.specs.Tables.{table_at};
ghost use Rattle.meaning.specs.Rows.{RowIs, after_row, before_row};

use super::super::window::Window;
use super::Row;
use lasso::{Instant, Value};

impl Row {
    // At each instant of a window, the value at the next.
    pub(crate) fn after(&self, window: Window) -> Row
        ensures { RowIs window.instants result.values (after_row window.instants window.period (table_at self.now.values)) }
    {
        Row::filled(window, |i| self.value(window.after(Instant(i))))
    }

    // At each instant of a window, the value at the one before.
    pub(crate) fn before(&self, window: Window) -> Row
        ensures { RowIs window.instants result.values (before_row (table_at self.now.values)) }
    {
        Row::filled(window, |i| self.value_before(Instant(i)))
    }

    // The value at the instant before; no at the first.
    fn value_before(&self, instant: Instant) -> Value
        ensures { result ≡ before_row (table_at self.now.values) instant.0 }
    {
        instant
            .0
            .checked_sub(1)
            .map_or(Value::No, |earlier| self.value(Instant(earlier)))
    }
}
