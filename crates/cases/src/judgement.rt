ghost use Rattle.cases.specs.Judgements.{ByMeaning, ByNothing, ByBytes};

use faults::Fault;
use lasso::Value;
use logs::Log;
use places::places;
use problem::Problem;
use source::{Blank, Source};
use std::fmt;
use thiserror::Error;
use verdict::verdict;

// Why there is no verdict: the problem text or the log is refused, or the two do not fit.
#[derive(Clone, Copy, Debug, Error)]
pub enum NoVerdict {
    #[error("text refused {} at {}", .0.number(), .0.place())]
    TextRefused(Fault),
    #[error("log refused {} at {}", .0.number(), .0.place())]
    LogRefused(Fault),
    #[error("{}", InWords {misfit: *.0})]
    Unfit(Fault),
}

// The verdict by a source that knows nothing.
pub fn by_nothing(problem: &Problem) -> Result<Value, NoVerdict>
    ensures { ByNothing problem.now result }
{
    by_source(problem, &Blank::new(places(problem)).unwrap())
}

// The verdict by the bytes of a log.
pub fn by_log(problem: &Problem, bytes: &[u8]) -> Result<Value, NoVerdict>
    ensures { ByBytes problem.now bytes.now result }
{
    let mut log = Log::fresh();
    log.read(bytes).map_err(NoVerdict::LogRefused)?;
    by_source(problem, &log)
}

// The verdict by a source, or why the source does not fit the problem.
fn by_source<S: Source>(problem: &Problem, source: &S) -> Result<Value, NoVerdict>
    ensures { ByMeaning problem.now (S.Source.meaning source.now) result }
{
    verdict(problem, source).map_err(NoVerdict::Unfit)
}

// A misfit in words: its number, and where and when a contradiction shows.
#[derive(Drop)]
struct InWords {
    misfit: Fault,
}

impl fmt::Display for InWords {
    fn fmt<W: fmt::Write>(&self, f: &mut fmt::Formatter<W>) -> fmt::Result {
        let number = self.misfit.number();
        match self.misfit {
            Fault::Contradiction { place, instant } => {
                write!(f, "refused {number} at {place} instant {}", instant.0)
            }
            _ => write!(f, "refused {number}"),
        }
    }
}
