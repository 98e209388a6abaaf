ghost use Rattle.std.specs.Prelude.{◌≡◌, ℕ, ◌+◌, ◌*◌, ◌<◌, ◌≤◌, slice_index_or};
ghost use Rattle.lasso.specs.declared.value.Value.{Value as ValueOf};
ghost use Rattle.tuples.specs.Tabled.{table_of};

use super::Tuples;
use super::filled::filled;
use lasso::Value;

impl Tuples {
    // The tuples of an arity with these values.
    pub(crate) fn of_values(arity: usize, values: [Value; 512]) -> Tuples
        requires some { 1 ≤ arity }
        requires few { arity ≤ 3 }
        ensures arity { result.arity ≡ arity }
        ensures values { result.values ≡ values }
    {
        Tuples { arity, values }
    }

    // How many atoms a tuple has, 1 to 3.
    pub fn arity(&self) -> usize
        ensures value { result ≡ self.now.arity }
        ensures some { 1 ≤ result }
        ensures few { result ≤ 3 }
    {
        self.arity
    }

    // The value of a tuple; no beyond the last.
    pub fn value(&self, tuple: usize) -> Value
        ensures { result ≡ table_of self.now tuple }
    {
        self.values.get(tuple).copied().unwrap_or(Value::No)
    }

    // The value of a tuple put together from two, the last of which is one of so many.
    #[tactic(auto, using(crate::proofs::Beyond::same_value))]
    pub(crate) fn value_of_two(&self, first: usize, width: usize, last: usize) -> Value
        requires some { 1 ≤ width }
        requires few { width ≤ 512 }
        ensures { result ≡ table_of self.now (first * width + last) }
    {
        // What is cut off is beyond the last tuple, as the number itself is. Sums that saturate are slower in joins.
        self.value(first.min(512) * width + last.min(512))
    }

    // The values of the first tuples.
    pub fn first<const N: usize>(&self) -> [Value; N]
        ensures { (r : ℕ) (beyond : ValueOf) → r < N → slice_index_or result r beyond ≡ table_of self.now r }
    {
        filled(
            N,
            |r| -> Value
                ensures { result ≡ table_of self.entry.now r }
            { self.value(r) },
        )
    }
}
