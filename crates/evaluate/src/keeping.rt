ghost use Rattle.std.specs.Prelude.{◌≡◌, ◌*◌, ◌<◌, ◌≤◌, length, slice_set};
ghost use Rattle.problem.specs.Sorts.{bound_at};
ghost use Rattle.problem.specs.Problems.{nodes_in, sorts_in};
ghost use Rattle.meaning.specs.Tuples.{tuples as tuples_of};
ghost use Rattle.evaluate.specs.Known.{ClosedIs, PackedIs, StatesAre};

use super::evaluator::Evaluator;
use super::kept::{Kept, States};
use super::parts::{Closed, closed_expression, is_beside_variable, is_closed};
use lasso::State;
use rows::Row;
use table::MOST_STATES;
use tuples::Packed;

impl Evaluator<'_> {
    // Works out the expressions of all nodes that use no variable, each after its parts.
    pub(crate) fn keep_tables(&mut self)
        ensures { self.new.setting ≡ self.old.setting }
    {
        'nodes: for node in 0..self.setting.problem.parts().len() {
            if let Some(closed) = closed_expression(self.setting.problem, node) {
                self.keep_table(closed);
            }
        }
    }

    // Works out the expression of a node that uses no variable. One of more than 64 tuples, which have three atoms, takes eight times the
    // room, and is kept only where it is asked for at each binding: as a part of a node that uses a variable.
    fn keep_table(&mut self, closed: Closed)
        requires { ClosedIs self.old.setting.problem.now closed }
        ensures { self.new.setting ≡ self.old.setting }
    {
        if self.setting.atoms.tuples(closed.arity) <= 64 {
            let states = self.states_of(closed);
            self.tables.put(closed.node, states);
        } else if is_beside_variable(self.setting.problem, closed.node) {
            let states = self.states_of(closed);
            self.large.put(closed.node, states);
        }
    }

    // The values of an expression that uses no variable, in each state.
    fn states_of<const N: usize>(&self, closed: Closed) -> States<N>
        requires closed { ClosedIs self.now.setting.problem.now closed }
        requires room { tuples_of self.now.setting.atoms.count closed.arity ≤ 4 * N }
        ensures { StatesAre self.now.setting.atoms.count self.now.setting.problem.now self.now.setting.table.now closed.node result }
    {
        // A loop of its own: a closure for `in_each_state`, or for `array::from_fn`, gets no proof yet where its result alone names N, and
        // a value captured to name it too would be there for that alone.
        let mut values = [Packed::none(); MOST_STATES];
        'states: for s in 0..self.setting.table.shape().states() {
            values[s] = self.packed(closed.node, State(s));
        }
        States {
            arity: closed.arity,
            values,
        }
    }

    // The values of the expression of a node in a state, with no variable bound.
    fn packed<const N: usize>(&self, node: usize, state: State) -> Packed<N>
        requires { node < length (nodes_in self.now.setting.problem.now) }
        ensures { PackedIs self.now.setting.atoms.count self.now.setting.problem.now self.now.setting.table.now node state.0 result }
    {
        Packed::of(&self.expression(&[0; 4], node, state))
    }

    // Works out the rows of all nodes that use no variable, each after its parts.
    pub(crate) fn keep_rows(&mut self)
        ensures { self.new.setting ≡ self.old.setting }
    {
        'nodes: for node in 0..self.setting.problem.parts().len() {
            if is_closed(self.setting.problem, node) {
                self.keep_row(node);
            }
        }
    }

    // Works out the row of a node that uses no variable.
    fn keep_row(&mut self, node: usize)
        requires there { node < length (nodes_in self.old.setting.problem.now) }
        requires closed { bound_at (sorts_in self.old.setting.problem.now) node ≡ 0 }
        ensures { self.new.setting ≡ self.old.setting }
    {
        let row = self.formula(&[0; 4], node);
        put_row(&mut self.rows, node, row);
    }
}

// Keeps the row of a node. Apart from `keep_row`, where a proof by hand and not the code would refuse a wrong node.
fn put_row(rows: &mut Kept<Row>, node: usize, row: Row)
    ensures { rows.new.items ≡ slice_set rows.old.items node (Some row) }
{
    rows.put(node, row);
}
