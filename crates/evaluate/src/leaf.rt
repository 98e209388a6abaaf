ghost use Rattle.std.specs.Prelude.{◌≡◌, ℕ, ◌<◌, length, slice_index_or};
ghost use Rattle.lasso.specs.Lassos.{state_at};
ghost use Rattle.problem.specs.Problems.{nodes_in};
ghost use Rattle.meaning.specs.Tuples.{tuples as tuples_of};
ghost use Rattle.meaning.specs.Formulas.{arity};
ghost use Rattle.meaning.specs.Tables.{tested_value as tested_of, compared_value as compared_of};
ghost use Rattle.meaning.specs.Rows.{RowIs};
ghost use Rattle.evaluate.specs.Shown.{expr_in};
ghost use Rattle.evaluate.specs.Members.{FirstAre, ValueIn, member_at, MembersAre};
ghost use Rattle.evaluate.specs.Settings.{table_of_node};

use super::evaluator::Evaluator;
use lasso::{State, Value};
use problem::{Comparison, Test};
use rows::Row;
use table::MOST_STATES;

impl Evaluator<'_> {
    // At each instant, whether the expression of a node has some tuple, or none.
    pub(crate) fn tested_row(&self, variables: &[usize; 4], test: Test, part: usize) -> Row
        requires { part < length (nodes_in self.now.setting.problem.now) }
        ensures { RowIs self.now.setting.window.instants result.values (λ i. tested_of test (tuples_of self.now.setting.atoms.count (arity (expr_in self.now.setting.problem.now part))) (table_of_node self.now.setting variables.now part i)) }
    {
        let values = self.in_each_state(Value::No, |state| {
            self.tested_value(variables, test, part, state)
        });
        Row::spread(&values, self.setting.table.shape(), self.setting.window)
    }

    // In a state, whether the expression of a node has some tuple, or none. It stands outside the closure above, since a proof cannot
    // name what the first of two calls in a closure gave. It takes the closure's parts and its state: a struct of them would be put
    // together there, and read at once.
    fn tested_value(&self, variables: &[usize; 4], test: Test, part: usize, state: State) -> Value
        requires { part < length (nodes_in self.now.setting.problem.now) }
        ensures { ValueIn self.now.setting.table.now state.0 result (λ i. tested_of test (tuples_of self.now.setting.atoms.count (arity (expr_in self.now.setting.problem.now part))) (table_of_node self.now.setting variables.now part i)) }
    {
        self.expression(variables, part, state)
            .tested(test, self.setting.atoms)
    }

    // At each instant, whether the expression of one node is in that of another, or the same. What the node says comes in its parts:
    // a struct of them would be put together from the pattern, and read at once.
    pub(crate) fn compared_row(
        &self,
        variables: &[usize; 4],
        comparison: Comparison,
        left: usize,
        right: usize,
    ) -> Row
        requires left { left < length (nodes_in self.now.setting.problem.now) }
        requires right { right < length (nodes_in self.now.setting.problem.now) }
        requires alike { arity (expr_in self.now.setting.problem.now left) ≡ arity (expr_in self.now.setting.problem.now right) }
        ensures { RowIs self.now.setting.window.instants result.values (λ i. compared_of comparison (tuples_of self.now.setting.atoms.count (arity (expr_in self.now.setting.problem.now left))) (table_of_node self.now.setting variables.now left i) (table_of_node self.now.setting variables.now right i)) }
    {
        let values = self.in_each_state(Value::No, |state| {
            self.compared_value(variables, comparison, left, right, state)
        });
        Row::spread(&values, self.setting.table.shape(), self.setting.window)
    }

    // In a state, whether the expression of one node is in that of another, or the same: the closure's parts and its state, as above.
    fn compared_value(
        &self,
        variables: &[usize; 4],
        comparison: Comparison,
        left: usize,
        right: usize,
        state: State,
    ) -> Value
        requires left { left < length (nodes_in self.now.setting.problem.now) }
        requires right { right < length (nodes_in self.now.setting.problem.now) }
        requires alike { arity (expr_in self.now.setting.problem.now left) ≡ arity (expr_in self.now.setting.problem.now right) }
        ensures { ValueIn self.now.setting.table.now state.0 result (λ i. compared_of comparison (tuples_of self.now.setting.atoms.count (arity (expr_in self.now.setting.problem.now left))) (table_of_node self.now.setting variables.now left i) (table_of_node self.now.setting variables.now right i)) }
    {
        let first = self.expression(variables, left, state);
        let second = self.expression(variables, right, state);
        first.compared(comparison, &second, self.setting.atoms)
    }

    // The values of the first 8 tuples of the expression of a node, in each state.
    pub(crate) fn members_of(
        &self,
        variables: &[usize; 4],
        domain: usize,
    ) -> [[Value; 8]; MOST_STATES]
        requires { domain < length (nodes_in self.now.setting.problem.now) }
        ensures { MembersAre self.now.setting.atoms.count self.now.setting.problem.now self.now.setting.table.now variables.now domain self.now.setting.table.now.shape.states result }
    {
        self.in_each_state(
            [Value::No; 8],
            |state| -> [Value; 8]
                requires { domain < length (nodes_in self.now.setting.problem.now) }
                ensures { FirstAre 8 self.entry.now.setting.atoms.count self.entry.now.setting.problem.now self.entry.now.setting.table.now variables.entry.now domain state.0 result }
            { self.first_values(variables, domain, state) },
        )
    }

    // The values of the first 8 tuples of the expression of a node in a state.
    fn first_values(&self, variables: &[usize; 4], node: usize, state: State) -> [Value; 8]
        requires { node < length (nodes_in self.now.setting.problem.now) }
        ensures { FirstAre 8 self.now.setting.atoms.count self.now.setting.problem.now self.now.setting.table.now variables.now node state.0 result }
    {
        self.expression(variables, node, state).first()
    }

    // At each instant, the value that an atom has in the state, by the values of each state.
    pub(crate) fn member_row(&self, members: &[[Value; 8]; MOST_STATES], atom: usize) -> Row
        ensures { RowIs self.now.setting.window.instants result.values (λ i. member_at members.now (state_at self.now.setting.table.now.shape.states self.now.setting.table.now.shape.loop_start i) atom) }
    {
        let values = self.in_each_state(Value::No, |state| member(members, state, atom));
        Row::spread(&values, self.setting.table.shape(), self.setting.window)
    }

    // What a function gives for each state, and blanks beyond the last. Those that spread it over the instants do so themselves, in a
    // line: a shared function would have to say of the row what the closure says of a state, in more lines than the three have.
    pub(crate) fn in_each_state<T: Copy, F: Fn(State) -> T>(
        &self,
        blank: T,
        of_state: F,
    ) -> [T; MOST_STATES]
        requires { F.IsAlwaysCallable of_state }
        ensures { (s : ℕ) (d : T) → s < self.now.setting.table.now.shape.states → F.post of_state (record { 0 = s }) (slice_index_or result s d) }
    {
        // By index: in a loop over `iter_mut().enumerate()` no invariant can name the array that is written. `array::from_fn` with a test in
        // its closure proves, but the closure states more lines than the loop has, and with all three fills verdicts took three times as long.
        // Tuples and rows fill their own: a shared fill would be public, and ask its callers for a closure that may be called.
        let mut values = [blank; MOST_STATES];
        'states: for s in 0..self.setting.table.shape().states() {
            values[s] = of_state(State(s));
        }
        values
    }
}

// The value of an atom in a state; no where none is there.
fn member(members: &[[Value; 8]], state: State, atom: usize) -> Value
    ensures { result ≡ member_at members.now state.0 atom }
{
    members
        .get(state.0)
        .and_then(|values| values.get(atom))
        .copied()
        .unwrap_or(Value::No)
}
