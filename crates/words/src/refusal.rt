ghost use Rattle.std.specs.Prelude.{◌≡◌, true, is_err};

use anyhow::anyhow;
use faults::Fault;
use std::fmt;

// A refusal in a line: its number, its place, and what is wrong.
#[derive(Drop)]
pub struct Refusal {
    pub fault: Fault,
}

impl fmt::Display for Refusal {
    fn fmt<W: fmt::Write>(&self, f: &mut fmt::Formatter<W>) -> fmt::Result {
        let fault = self.fault;
        let (number, place) = (fault.number(), fault.place());
        write!(f, "refused {number} at {place}: {fault}")
    }
}

// Prints why something is refused, and ends the program as one that refused.
pub fn refuse<D: fmt::Display + Drop>(rt: &HostRuntime, why: D) -> anyhow::Result<()>
    ensures { is_err result ≡ true }
{
    rt.println(why)?;
    Err(anyhow!("refused"))
}
