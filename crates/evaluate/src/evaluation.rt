ghost use Rattle.std.specs.Prelude.{◌≡◌, ◌-◌, ◌≤◌, length};
ghost use Rattle.problem.specs.Problems.{atoms_in, nodes_in, sorts_in};
ghost use Rattle.meaning.specs.Meaning.{ValueIs};
ghost use Rattle.meaning.specs.NodeLaws.{NodesStand, past_at};
ghost use Rattle.meaning.specs.Laws.{AtMostOneValue, ValueOnLasso};
ghost use Rattle.meaning.specs.TableLaws.{ExpressionsStand};
ghost use Rattle.meaning.specs.Trees.{formula_in, no_variable};
ghost use Rattle.meaning.specs.Tables.{table_at};
ghost use Rattle.table.specs.Tables.{path_of};

use super::evaluator::Evaluator;
use super::few::Few;
use super::kept::Kept;
use super::setting::Setting;
use lasso::{Instant, Value};
use problem::Problem;
use rows::{Row, Window};
use table::Table;
use tuples::Atoms;

// The value of a problem's formula at the first instant of the endless path of a table.
pub fn evaluate(problem: &Problem, table: &Table) -> Value
    ensures value { ValueIs (length (atoms_in problem.now)) (path_of table.now) (formula_in problem.now) no_variable 0 result }
    ensures single { AtMostOneValue }
    ensures some { ValueOnLasso }
    ensures tables { ExpressionsStand }
    ensures nodes { NodesStand }
{
    whole_row(problem, table).value(Instant(0))
}

// The row of a problem's formula: its first value is that of the formula.
fn whole_row(problem: &Problem, table: &Table) -> Row
    ensures { ValueIs (length (atoms_in problem.now)) (path_of table.now) (formula_in problem.now) no_variable 0 (table_at result.values 0) }
{
    let mut evaluator = blank(setting(problem, table));
    evaluator.keep_tables();
    evaluator.keep_rows();
    evaluator.formula(&[0; 4], problem.root())
}

// Nothing is worked out yet.
fn blank(setting: Setting<'_>) -> Evaluator<'_>
    ensures { result.setting ≡ setting.entry }
{
    Evaluator {
        setting,
        tables: Kept::nothing(),
        large: Few::nothing(),
        rows: Kept::nothing(),
    }
}

// What the formula of a problem is evaluated by on the path of a table.
fn setting<'p>(problem: &'p Problem, table: &'p Table) -> Setting<'p>
    ensures problem { result.problem.now ≡ problem.now }
    ensures table { result.table.now ≡ table.now }
{
    Setting {
        problem,
        table,
        atoms: Atoms::new(problem.atoms().len()).unwrap(),
        window: Window::of(table.shape(), past(problem)).unwrap(),
    }
}

// How deep in the past the formula of a problem is.
#[tactic(auto, using(crate::proofs::Bounds::past_within))]
fn past(problem: &Problem) -> usize
    ensures value { result ≡ past_at (sorts_in problem.now) (length (nodes_in problem.now) - 1) }
    ensures few { result ≤ 4 }
{
    problem.sort(problem.root()).map_or(0, |sort| sort.past())
}
