ghost use Rattle.std.specs.Prelude.{◌≡◌, ◌-◌, true, false};
ghost use Rattle.lasso.specs.declared.value.Value.TheVariants.{No};
ghost use Rattle.problem.specs.Sorts.{suits as suits_of, outcome as outcome_of};
ghost use Rattle.meaning.specs.Tuples.{tuples as tuples_of};
ghost use Rattle.meaning.specs.Tables.{product_table, join_table, combined_table};
ghost use Rattle.meaning.specs.Laws.{JoinAtAtoms, ProductAtAtoms};
ghost use Rattle.meaning.specs.TableLaws.{TablesStand};
ghost use Rattle.tuples.specs.Tabled.{table_of, Tabled};

use super::super::atoms::Atoms;
use super::Tuples;
use super::folds::highest;
use lasso::Value;
use problem::{Constant, Operator};

impl Tuples {
    // Two sets of tuples combined by a sign; no tuple where their arities do not suit it.
    pub fn combined(&self, operator: Operator, other: &Tuples, atoms: Atoms) -> Tuples
        ensures suited { suits_of operator self.now.arity other.now.arity ≡ true → Tabled atoms.count (outcome_of operator self.now.arity other.now.arity) (combined_table operator atoms.count other.now.arity (table_of self.now) (table_of other.now)) result }
        ensures unsuited { suits_of operator self.now.arity other.now.arity ≡ false → Tabled atoms.count 1 (λ r. No) result }
        ensures tables { TablesStand }
        ensures join { JoinAtAtoms }
        ensures product { ProductAtAtoms }
    {
        let operands = Operands {
            left: self,
            right: other,
            atoms,
        };
        match operator.outcome(self.arity, other.arity) {
            Some(arity) => Tuples::tabled(arity, atoms, |r| operands.combined_value(operator, r)),
            None => Tuples::constant(Constant::None, atoms),
        }
    }
}

// Two sets of tuples that are combined, and the atoms that they are of.
#[derive(Clone, Copy)]
struct Operands<'t> {
    left: &'t Tuples,
    right: &'t Tuples,
    atoms: Atoms,
}

impl Operands<'_> {
    // The value of a tuple that comes of the two.
    fn combined_value(&self, operator: Operator, tuple: usize) -> Value
        ensures { result ≡ combined_table operator self.now.atoms.count self.now.right.now.arity (table_of self.now.left.now) (table_of self.now.right.now) tuple }
    {
        match operator {
            Operator::Union => self.left.value(tuple).greater(self.right.value(tuple)),
            Operator::Difference => self.left.value(tuple).smaller(!self.right.value(tuple)),
            Operator::Intersection => self.left.value(tuple).smaller(self.right.value(tuple)),
            Operator::Product => self.product_value(tuple),
            Operator::Join => self.join_value(tuple),
        }
    }

    // The value of two tuples side by side.
    fn product_value(&self, tuple: usize) -> Value
        ensures { result ≡ product_table (tuples_of self.now.atoms.count self.now.right.now.arity) (table_of self.now.left.now) (table_of self.now.right.now) tuple }
    {
        let width = self.atoms.tuples(self.right.arity);
        let left = self.left.value(tuple / width);
        let right = self.right.value(tuple % width);
        left.smaller(right)
    }

    // The greatest value of two tuples that meet at an atom.
    fn join_value(&self, tuple: usize) -> Value
        ensures { result ≡ join_table self.now.atoms.count (tuples_of self.now.atoms.count (self.now.right.now.arity - 1)) (table_of self.now.left.now) (table_of self.now.right.now) tuple }
    {
        let (left, right) = (self.left, self.right);
        let count = self.atoms.count();
        let width = self.atoms.tuples(right.arity - 1);
        let (first, last) = (tuple / width, tuple % width);
        highest(count, |atom| {
            left.value_of_two(first, count, atom)
                .smaller(right.value_of_two(atom, width, last))
        })
    }
}
