ghost use Rattle.std.specs.Prelude.{◌≡◌, Some};
ghost use Rattle.lasso.specs.Values.{not as not_of, of_bool, smaller as smaller_of, greater as greater_of, word_of};

use std::fmt;
use std::ops::Not;

// A Kleene value: what is known of a place at an instant. The values ascend.
#[derive(Clone, Copy, PartialEq, Eq, PartialOrd, Ord, Debug)]
pub enum Value {
    No,
    Open,
    Yes,
}

impl Value {
    // The smaller of two values.
    pub fn smaller(self, other: Value) -> Value
        ensures { result ≡ smaller_of self other }
    {
        self.min(other)
    }

    // The greater of two values.
    pub fn greater(self, other: Value) -> Value
        ensures { result ≡ greater_of self other }
    {
        self.max(other)
    }
}

// No and yes exchanged; open stays.
impl Not for Value {
    type Output = Value;

    ghost not_gives = { λ v r. r ≡ not_of v };

    fn not(self) -> Value {
        match self {
            Value::No => Value::Yes,
            Value::Open => Value::Open,
            Value::Yes => Value::No,
        }
    }
}

// Yes of what holds, no of what does not.
impl From<bool> for Value {
    ghost from_gives = { λ b v. v ≡ of_bool b };

    fn from(held: bool) -> Value {
        if held { Value::Yes } else { Value::No }
    }
}

// The word for a value.
impl fmt::Display for Value {
    ghost output = { λ v. Some (word_of v) };

    fn fmt<W: fmt::Write>(&self, f: &mut fmt::Formatter<W>) -> fmt::Result {
        f.write_str(match self {
            Value::No => "no",
            Value::Open => "open",
            Value::Yes => "yes",
        })
    }
}
