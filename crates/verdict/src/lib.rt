//! The verdict on a problem and a source: what its formula is by what is known.
#![tactic(auto)]

ghost use Rattle.std.specs.Prelude.{MatchResult};
ghost use Rattle.source.specs.Meanings.{Meaning};
ghost use Rattle.meaning.specs.Laws.{Refinement, Settled};
ghost use Rattle.table.specs.Tables.{Copied};
ghost use Rattle.known.specs.Known.{Fits, Misfit};
ghost use Rattle.verdict.specs.Verdicts.{Verdict};

use evaluate::evaluate;
use faults::Fault;
use known::{fit, known_table};
use lasso::Value;
use problem::Problem;
use source::Source;
use table::{Table, copied};

// The formula's value on the path of what is known; or 19 or 20 if the source does not fit the problem.
pub fn verdict<S: Source>(problem: &Problem, source: &S) -> Result<Value, Fault>
    ensures answer { MatchResult result (λ v. Verdict problem.now (S.Source.meaning source.now) v) (λ f. Misfit problem.now (S.Source.meaning source.now) f) }
    ensures filled { Refinement }
    ensures settled { Settled }
{
    judged(problem, &copied(source))
}

// The same of the answers of a source, as a table.
fn judged(problem: &Problem, told: &Table) -> Result<Value, Fault>
    ensures { (m : Meaning) → Copied m told.now → MatchResult result (λ v. Verdict problem.now m v) (λ f. Misfit problem.now m f) }
{
    fit(problem, told)?;
    Ok(known_value(problem, told))
}

// The formula's value on the path of what is known, where the source fits.
fn known_value(problem: &Problem, told: &Table) -> Value
    requires { (m : Meaning) → Copied m told.now → Fits problem.now m }
    ensures { (m : Meaning) → Copied m told.now → Verdict problem.now m result }
{
    evaluate(problem, &known_table(problem, told))
}
