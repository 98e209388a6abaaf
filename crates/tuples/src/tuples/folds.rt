ghost use Rattle.std.specs.Prelude.{◌≡◌};
ghost use Rattle.meaning.specs.Tables.{Table, highest as highest_of, lowest as lowest_of};
ghost use Rattle.tuples.specs.Tabled.{ValuesBy};

use lasso::Value;

// The greatest of the values of a function below a count; no of none.
pub(crate) fn highest<F: Fn(usize) -> Value>(count: usize, value_of: F) -> Value
    requires { F.IsAlwaysCallable value_of }
    ensures { (f : Table) → ValuesBy (F.post value_of) f → result ≡ highest_of count f }
{
    (0..count).fold(Value::No, |best, r| best.greater(value_of(r)))
}

// The least of the values of a function below a count; yes of none.
pub(crate) fn lowest<F: Fn(usize) -> Value>(count: usize, value_of: F) -> Value
    requires { F.IsAlwaysCallable value_of }
    ensures { (f : Table) → ValuesBy (F.post value_of) f → result ≡ lowest_of count f }
{
    (0..count).fold(Value::Yes, |worst, r| worst.smaller(value_of(r)))
}
