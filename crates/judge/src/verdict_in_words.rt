use lasso::Value;
use std::fmt;

// A verdict, and a line on what it means.
#[derive(Drop)]
pub struct VerdictInWords {
    pub value: Value,
}

impl fmt::Display for VerdictInWords {
    fn fmt<W: fmt::Write>(&self, f: &mut fmt::Formatter<W>) -> fmt::Result {
        let value = self.value;
        writeln!(f, "verdict: {value}")?;
        f.write_str(meaning_of(value))
    }
}

// What a verdict means.
fn meaning_of(value: Value) -> &'static str {
    match value {
        Value::No => "no behaviour that is possible meets the formula",
        Value::Open => "what is known does not settle the formula",
        Value::Yes => "every behaviour that is possible meets the formula",
    }
}
