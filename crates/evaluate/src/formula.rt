ghost use Rattle.std.specs.Prelude.{◌≡◌, ◌<◌, length, slice_set};
ghost use Rattle.problem.specs.Problems.{nodes_in};
ghost use Rattle.meaning.specs.Formulas.{arity};
ghost use Rattle.meaning.specs.Tables.{quantified_value};
ghost use Rattle.meaning.specs.Rows.{RowIs};
ghost use Rattle.evaluate.specs.Shown.{expr_in};
ghost use Rattle.evaluate.specs.Settings.{table_of_node, row_at};

use super::evaluator::Evaluator;
use super::gathering::{gathered, of_none};
use super::parts::{bound, node_at};
use problem::{Node, Quantifier};
use rows::Row;

impl Evaluator<'_> {
    // The values of the formula of a node at each instant; no for an expression.
    #[cycle(formulas)]
    pub(crate) fn formula(&self, variables: &[usize; 4], node: usize) -> Row
        requires { node < length (nodes_in self.now.setting.problem.now) }
        ensures { RowIs self.now.setting.window.instants result.values (row_at self.now.setting variables.now node) }
    {
        // Tried: `unwrap_or_else`. Its closure joins the recursion, and takes a measure and clauses, more lines than these; the search left `returns`.
        match self.kept_row(node) {
            Some(row) => row,
            None => self.formula_of_parts(variables, node),
        }
    }

    // The same of the rows of its parts. The node's index falls at each call.
    #[cycle(formulas)]
    fn formula_of_parts(&self, variables: &[usize; 4], node: usize) -> Row
        requires { node < length (nodes_in self.now.setting.problem.now) }
        ensures { RowIs self.now.setting.window.instants result.values (row_at self.now.setting variables.now node) }
    {
        let window = self.setting.window;
        match node_at(self.setting.problem, node) {
            Node::Tested(test, part) => self.tested_row(variables, test, part),
            Node::Compared(comparison, left, right) => {
                self.compared_row(variables, comparison, left, right)
            }
            Node::Prefixed(prefix, part) => self.formula(variables, part).prefixed(prefix, window),
            Node::Joined(word, left, right) => {
                let left = self.formula(variables, left);
                let right = self.formula(variables, right);
                left.joined(word, &right, window)
            }
            Node::Quantified {
                quantifier,
                variable,
                domain,
                body,
            } => self.quantified_row(variables, quantifier, variable, domain, body),
            _ => Row::blank(),
        }
    }

    // At each instant, whether a formula holds for all atoms of a domain, or for some, with a variable bound to the atom. What the
    // node says comes in its parts: a struct of them would be put together from the pattern, and read at once.
    #[cycle(formulas)]
    fn quantified_row(
        &self,
        variables: &[usize; 4],
        quantifier: Quantifier,
        variable: usize,
        domain: usize,
        body: usize,
    ) -> Row
        requires domain { domain < length (nodes_in self.now.setting.problem.now) }
        requires body { body < length (nodes_in self.now.setting.problem.now) }
        requires atoms { arity (expr_in self.now.setting.problem.now domain) ≡ 1 }
        ensures { RowIs self.now.setting.window.instants result.values (λ i. quantified_value quantifier self.now.setting.atoms.count (table_of_node self.now.setting variables.now domain i) (λ a. row_at self.now.setting (slice_set variables.now variable a) body i)) }
    {
        let members = self.members_of(variables, domain);
        let mut row = of_none(quantifier, self.setting.window);
        // Tried: `fold`. Its closure joins the recursion: with a measure of its own, that it may be called at each atom was left to show.
        'atoms: for atom in 0..self.setting.atoms.count() {
            let member = self.member_row(&members, atom);
            let inner = bound(variables, variable, atom);
            let value = self.formula(&inner, body);
            row = gathered(quantifier, &row, &member, &value, self.setting.window);
        }
        row
    }
}
