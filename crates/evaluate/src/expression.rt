ghost use Rattle.std.specs.Prelude.{◌<◌, length};
ghost use Rattle.problem.specs.Problems.{nodes_in};
ghost use Rattle.evaluate.specs.Settings.{ExpressionAt};

use super::evaluator::Evaluator;
use super::parts::{arity_of, atom_of, next_state, node_at};
use lasso::State;
use places::first_place;
use problem::{Constant, Node};
use tuples::Tuples;

impl Evaluator<'_> {
    // The values of the expression of a node in a state, tuple by tuple; no tuple for a formula.
    #[cycle(expressions)]
    pub(crate) fn expression(&self, variables: &[usize; 4], node: usize, state: State) -> Tuples
        requires { node < length (nodes_in self.now.setting.problem.now) }
        ensures { ExpressionAt self.now.setting variables.now node state.0 result }
    {
        // Tried: `unwrap_or_else`. Its closure joins the recursion, and takes a measure and clauses, more lines than these; the search left `returns`.
        match self.kept_expression(node, state) {
            Some(tuples) => tuples,
            None => self.expression_of_parts(variables, node, state),
        }
    }

    // The same of the expressions of its parts. The node's index falls at each call.
    #[cycle(expressions)]
    fn expression_of_parts(&self, variables: &[usize; 4], node: usize, state: State) -> Tuples
        requires { node < length (nodes_in self.now.setting.problem.now) }
        ensures { ExpressionAt self.now.setting variables.now node state.0 result }
    {
        let (problem, table, atoms) = (
            self.setting.problem,
            self.setting.table,
            self.setting.atoms,
        );
        match node_at(problem, node) {
            Node::Relation(relation) => Tuples::relation(
                table.row(state),
                first_place(problem, relation),
                arity_of(problem, relation),
                atoms,
            ),
            Node::Variable(variable) => Tuples::variable(atom_of(variables, variable), atoms),
            Node::Constant(constant) => Tuples::constant(constant, atoms),
            Node::Turned(turn, part) => self.expression(variables, part, state).turned(turn, atoms),
            Node::Next(part) => {
                let next = next_state(table.shape(), state);
                self.expression(variables, part, next)
            }
            Node::Combined(operator, left, right) => {
                let left = self.expression(variables, left, state);
                let right = self.expression(variables, right, state);
                left.combined(operator, &right, atoms)
            }
            _ => Tuples::constant(Constant::None, atoms),
        }
    }
}
