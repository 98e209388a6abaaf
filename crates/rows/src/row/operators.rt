ghost use Rattle.meaning.specs.Tables.{table_at};
ghost use Rattle.meaning.specs.Rows.{RowIs, prefixed_row, joined_row};

use super::super::window::Window;
use super::Row;
use problem::{Infix, Prefix};

impl Row {
    // The row of a word before a formula that has this row.
    pub fn prefixed(&self, prefix: Prefix, window: Window) -> Row
        ensures { RowIs window.instants result.values (prefixed_row window.instants window.period prefix (table_at self.now.values)) }
    {
        match prefix {
            Prefix::Not => self.negated(window),
            Prefix::After => self.after(window),
            Prefix::Always => self.always(window),
            Prefix::Eventually => self.eventually(window),
            Prefix::Before => self.before(window),
            Prefix::Historically => self.historically(window),
            Prefix::Once => self.once(window),
        }
    }

    // The row of a word between two formulas, of which the first has this row.
    pub fn joined(&self, word: Infix, other: &Row, window: Window) -> Row
        ensures { RowIs window.instants result.values (joined_row window.instants window.period word (table_at self.now.values) (table_at other.now.values)) }
    {
        match word {
            Infix::And => self.and(other, window),
            Infix::Or => self.or(other, window),
            Infix::Implies => self.implies(other, window),
            Infix::Until => self.until(other, window),
            Infix::Since => self.since(other, window),
        }
    }
}
