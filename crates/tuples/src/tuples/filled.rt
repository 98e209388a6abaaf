ghost use Rattle.std.specs.Prelude.{◌≡◌, ℕ, ◌<◌, ◌≤◌, slice_index_or};
ghost use Rattle.lasso.specs.declared.value.Value.{Value as ValueOf};
ghost use Rattle.meaning.specs.Tuples.{tuples as tuples_of};
ghost use Rattle.tuples.specs.Tabled.{table_of};

use super::super::atoms::Atoms;
use super::Tuples;
use lasso::Value;

impl Tuples {
    // The tuples of an arity, with the values of a function.
    pub(crate) fn tabled<F: Fn(usize) -> Value>(arity: usize, atoms: Atoms, value_of: F) -> Tuples
        requires some { 1 ≤ arity }
        requires few { arity ≤ 3 }
        requires callable { (r : ℕ) → r < tuples_of atoms.count arity → F.pre value_of r }
        ensures arity { result.arity ≡ arity }
        ensures values { (r : ℕ) → r < tuples_of atoms.count arity → F.post value_of r (table_of result r) }
    {
        Tuples {
            arity,
            values: filled(atoms.tuples(arity), value_of),
        }
    }
}

// The values of a function below a count, and no from there on.
pub(crate) fn filled<const N: usize, F: Fn(usize) -> Value>(count: usize, value_of: F) -> [Value; N]
    requires few { count ≤ N }
    requires callable { (r : ℕ) → r < count → F.pre value_of r }
    ensures { (r : ℕ) (beyond : ValueOf) → r < count → F.post value_of r (slice_index_or result r beyond) }
{
    // By index: in a loop over `iter_mut().enumerate()` no invariant can name the array that is written. `array::from_fn` with a test in
    // its closure proves, but the closure states more lines than the loop has, and with all three fills verdicts took three times as long.
    // Rows and the evaluator fill their own: a shared fill would be public, and ask its callers for a closure that may be called.
    let mut values = [Value::No; N];
    'fill: for r in 0..count {
        values[r] = value_of(r);
    }
    values
}
