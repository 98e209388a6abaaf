ghost use Rattle.std.specs.Prelude.{◌≡◌, ℕ, ◌<◌, List, length, IfSome};
ghost use Rattle.problem.specs.Problems.{nodes_in};
ghost use Rattle.meaning.specs.Rows.{RowIs};
ghost use Rattle.evaluate.specs.Settings.{ExpressionAt, row_at};

use super::evaluator::Evaluator;
use super::parts::is_closed;
use lasso::State;
use rows::Row;
use tuples::Tuples;

impl Evaluator<'_> {
    // What is kept of the expression of a node in a state, for any variables.
    pub(crate) fn kept_expression(&self, node: usize, state: State) -> Option<Tuples>
        requires { node < length (nodes_in self.now.setting.problem.now) }
        ensures { IfSome result (λ r. (e : List ℕ) → ExpressionAt self.now.setting e node state.0 r) }
    {
        // Nothing is kept of what uses a variable: `large` is not searched for it at each binding.
        if !is_closed(self.setting.problem, node) {
            return None;
        }
        match self.tables.get(node) {
            Some(states) => states.tuples(state, self.setting.atoms),
            None => self.large.get(node)?.tuples(state, self.setting.atoms),
        }
    }

    // The row that is kept of a node, for any variables.
    pub(crate) fn kept_row(&self, node: usize) -> Option<Row>
        ensures { IfSome result (λ r. (e : List ℕ) → length e ≡ 4 → RowIs self.now.setting.window.instants r.values (row_at self.now.setting e node)) }
    {
        self.rows.get(node).copied()
    }
}
