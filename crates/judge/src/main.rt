//! Reads a problem text from standard input and says in words what it holds, or where and why it is refused; then, by the log whose file
//! is named or by nothing, what is known of its formula.
#![tactic(auto)]

ghost use Rattle.std.specs.Prelude.{◌≡◌, true, is_err};

mod by_source;
mod counts;
mod misfit_in_words;
mod place_in_text;
mod report;
mod shown;
#[cfg(test)]
mod tests;
mod tuple_in_words;
mod verdict_in_words;

use anyhow::anyhow;
use by_source::tell_verdict;
use faults::Fault;
use problem::Problem;
use reader::{Refusal, read};
use report::{Accepted, Refused};
use std::io::Read;

fn main(rt: HostRuntime) -> anyhow::Result<()> {
    let mut text = Vec::new(rt.alloc());
    rt.stdin().read_to_end(&mut text)?;
    match Problem::fresh(rt.alloc()) {
        Ok(problem) => judge(&rt, text.as_slice(), problem),
        Err(_) => want_of_memory(&rt),
    }
}

// Reads the text into the problem, and says what comes of it.
fn judge(rt: &HostRuntime, text: &[u8], problem: Problem) -> anyhow::Result<()> {
    let mut problem = problem;
    match read(text, &mut problem, rt.alloc()) {
        Ok(()) => {
            rt.print(Accepted {
                problem: &problem,
                bytes: text.len(),
            })?;
            tell_verdict(rt, &problem)
        }
        Err(Refusal::Fault(fault)) => refuse_text(rt, text, fault),
        Err(Refusal::Memory(_)) => want_of_memory(rt),
    }
}

// Shows where and why the text is refused, and ends the program as one that refused. Not by `refuse` of `words`, which prints one line:
// this is several, each with its end.
fn refuse_text(rt: &HostRuntime, text: &[u8], fault: Fault) -> anyhow::Result<()>
    ensures { is_err result ≡ true }
{
    rt.print(Refused { text, fault })?;
    Err(anyhow!("refused"))
}

// Says that the text is neither accepted nor refused.
fn want_of_memory(rt: &HostRuntime) -> anyhow::Result<()> {
    println!(rt; "there is not enough memory to read a problem")?;
    Err(anyhow!("not enough memory"))
}
