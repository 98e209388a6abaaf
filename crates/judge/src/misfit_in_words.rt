use super::tuple_in_words::TupleInWords;
use faults::Fault;
use problem::Problem;
use std::fmt;
use words::Refusal;

// Why a source does not fit a problem; of a contradiction also the tuple, and the instant at which it shows.
#[derive(Drop)]
pub struct MisfitInWords<'a> {
    pub problem: &'a Problem,
    pub fault: Fault,
}

impl fmt::Display for MisfitInWords<'_> {
    fn fmt<W: fmt::Write>(&self, f: &mut fmt::Formatter<W>) -> fmt::Result {
        let (problem, fault) = (self.problem, self.fault);
        let refusal = Refusal { fault };
        write!(f, "{refusal}")?;
        match fault {
            Fault::Contradiction { place, instant } => {
                let (tuple, i) = (TupleInWords { problem, place }, instant.0);
                write!(f, ": {tuple} at instant {i}")
            }
            _ => Ok(()),
        }
    }
}
