ghost use Rattle.meaning.specs.Tables.{table_at};
ghost use Rattle.meaning.specs.Rows.{RowIs, not_row, and_row, or_row, implies_row};

use super::super::window::Window;
use super::Row;
use lasso::Instant;

impl Row {
    // Not, at each instant.
    pub(crate) fn negated(&self, window: Window) -> Row
        ensures { RowIs window.instants result.values (not_row (table_at self.now.values)) }
    {
        Row::filled(window, |i| !self.value(Instant(i)))
    }

    // And, at each instant.
    pub(crate) fn and(&self, other: &Row, window: Window) -> Row
        ensures { RowIs window.instants result.values (and_row (table_at self.now.values) (table_at other.now.values)) }
    {
        Row::filled(window, |i| {
            self.value(Instant(i)).smaller(other.value(Instant(i)))
        })
    }

    // Or, at each instant.
    pub(crate) fn or(&self, other: &Row, window: Window) -> Row
        ensures { RowIs window.instants result.values (or_row (table_at self.now.values) (table_at other.now.values)) }
    {
        Row::filled(window, |i| {
            self.value(Instant(i)).greater(other.value(Instant(i)))
        })
    }

    // Implies, at each instant.
    pub(crate) fn implies(&self, other: &Row, window: Window) -> Row
        ensures { RowIs window.instants result.values (implies_row (table_at self.now.values) (table_at other.now.values)) }
    {
        Row::filled(window, |i| {
            (!self.value(Instant(i))).greater(other.value(Instant(i)))
        })
    }
}
