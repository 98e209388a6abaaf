ghost use Rattle.std.specs.Prelude.{◌≡◌, ◌<◌};
ghost use Rattle.source.specs.Meanings.{Kept};
ghost use Rattle.table.specs.Tables.{Copied, Counts, StateCopied};

use super::table::Table;
use lasso::{Shape, State};
use source::Source;

// The answers of a source, as a table.
pub fn copied<S: Source>(source: &S) -> Table
    ensures { Copied (S.Source.meaning source.now) result }
{
    let mut table = counted(source);
    'states: for s in 0..table.shape().states() {
        copy_state(source, State(s), &mut table);
    }
    table
}

// The blank table with the counts of a source.
fn counted<S: Source>(source: &S) -> Table
    ensures counts { Counts (S.Source.meaning source.now) result }
    ensures kept { Kept (S.Source.meaning source.now) }
{
    let shape = Shape::new(source.states(), source.loop_start()).unwrap();
    Table::blank(source.places(), shape).unwrap()
}

// Copies the answers of a source in one state.
fn copy_state<S: Source>(source: &S, state: State, table: &mut Table)
    requires { state.0 < table.old.shape.states }
    ensures { StateCopied (S.Source.meaning source.now) state.0 table.old.places table.old table.new }
{
    'places: for p in 0..table.places() {
        table.write(p, state, source.value(p, state));
    }
}
