ghost use Rattle.std.specs.Prelude.{◌≡◌};
ghost use Rattle.bench_verdict.specs.Counts.{nothing_counted, counted};

use lasso::Value;
use std::fmt;

// How many verdicts were which.
#[derive(Clone, Copy)]
pub struct Counts {
    no: u64,
    unsettled: u64,
    yes: u64,
}

impl Counts {
    // None yet.
    pub fn none() -> Counts
        ensures { result ≡ nothing_counted }
    {
        Counts {
            no: 0,
            unsettled: 0,
            yes: 0,
        }
    }

    // One more.
    pub fn count(&mut self, value: Value)
        ensures { self.new ≡ counted value self.old }
    {
        match value {
            Value::No => self.no = self.no.saturating_add(1),
            Value::Open => self.unsettled = self.unsettled.saturating_add(1),
            Value::Yes => self.yes = self.yes.saturating_add(1),
        }
    }
}

impl fmt::Display for Counts {
    fn fmt<W: fmt::Write>(&self, f: &mut fmt::Formatter<W>) -> fmt::Result {
        let (no, open, yes) = (self.no, self.unsettled, self.yes);
        write!(f, "no {no}, open {open}, yes {yes}")
    }
}
