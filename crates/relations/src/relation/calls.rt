ghost use Rattle.std.specs.Prelude.{◌≡◌, ◌≤◌, length, slice_index_or};
ghost use Rattle.names.specs.Names.{spelling};
ghost use Rattle.lasso.specs.declared.value.Value.TheVariants.{No};
ghost use Rattle.relations.specs.Relations.{declared_of, declared, bounds_of, bound as bound_of, number_of, free_in};

use super::super::tuples::TupleSet;
use super::{Arity, Mutability, Relation};
use lasso::Value;
use names::{Name, Named};
use std::array;

impl Relation {
    // The relation of these bounds: a tuple is in if it is in the lower set, and free if only in the upper one.
    pub fn new(
        name: Name,
        mutability: Mutability,
        arity: Arity,
        lower: &TupleSet,
        upper: &TupleSet,
    ) -> Relation
        ensures { declared_of result ≡ declared (spelling name) mutability arity lower.now.held upper.now.held }
    {
        let bounds = bounds_of(lower, upper);
        Relation {
            name,
            mutability,
            arity,
            bounds,
        }
    }

    // Whether it may differ from state to state.
    pub fn mutability(&self) -> Mutability
        ensures { result ≡ self.now.mutability }
    {
        self.mutability
    }

    // How many atoms its tuples have.
    pub fn arity(&self) -> Arity
        ensures { result ≡ self.now.arity }
    {
        self.arity
    }

    // Whether a tuple is always in, free (open), or never in; from 64 on none is in.
    pub fn bound(&self, tuple: usize) -> Value
        ensures { result ≡ slice_index_or self.now.bounds tuple No }
    {
        self.bounds.get(tuple).copied().unwrap_or(Value::No)
    }

    // How many of the first tuples are free.
    pub fn free(&self, size: usize) -> usize
        ensures value { result ≡ free_in size self.now.bounds }
        ensures few { result ≤ 64 }
    {
        self.count(Value::Open, size)
    }

    // How many of the first tuples have a bound.
    pub fn count(&self, bound: Value, size: usize) -> usize
        ensures value { result ≡ number_of bound size self.now.bounds }
        ensures few { result ≤ 64 }
    {
        count_first(&self.bounds, bound, size)
    }
}

impl Named for Relation {
    ghost named = { λ r. spelling r.name };

    fn name(&self) -> &[u8] {
        self.name.as_bytes()
    }
}

// What the two sets say of a tuple.
fn bound_of(lower: bool, upper: bool) -> Value
    ensures { result ≡ bound_of lower upper }
{
    match (lower, upper) {
        (true, _) => Value::Yes,
        (false, true) => Value::Open,
        (false, false) => Value::No,
    }
}

// What the two sets say of each tuple.
fn bounds_of(lower: &TupleSet, upper: &TupleSet) -> [Value; 64]
    ensures value { result ≡ bounds_of lower.now.held upper.now.held }
    ensures whole { length result ≡ 64 }
{
    array::from_fn(|i| bound_of(lower.contains(i), upper.contains(i)))
}

// How many of the first values are this one.
fn count_first(values: &[Value], wanted: Value, size: usize) -> usize
    ensures value { result ≡ number_of wanted size values.now }
    ensures few { result ≤ length values.now }
{
    values
        .iter()
        .take(size)
        .filter(|&&value| value == wanted)
        .count()
}
