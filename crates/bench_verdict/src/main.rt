//! Measures how many verdicts are found in a second, on rules of about 100 parts over 8 atoms and logs of 7 instants. What the verdicts
//! are is printed, and the time to standard error. An argument says how many verdicts.
#![tactic(auto)]

mod counts;
mod marks;
mod problems;

use anyhow::{Context, Result, anyhow, bail};
use counts::Counts;
use logs::Log;
use problem::Problem;
use reader::read;
use std::env;
use std::time::Instant;
use verdict::verdict;

fn main(rt: HostRuntime) -> Result<()> {
    let count = count_wanted(&rt)?;
    measure(&rt, "without past", problems::without_past(), count)?;
    measure(&rt, "with past, 4 deep", problems::with_past(), count)
}

// How many verdicts are wanted on each rule: 40, or as many as an argument says.
fn count_wanted(rt: &HostRuntime) -> Result<u32> {
    let mut arguments = env::args(rt)?;
    let _program = arguments.next();
    match arguments.next() {
        Some(word) => word.as_str().parse::<u32>().context("how many verdicts"),
        None => Ok(40),
    }
}

// Finds so many verdicts on a problem, and prints what they are and how long that took.
fn measure(rt: &HostRuntime, name: &str, text: &[u8], count: u32) -> Result<()> {
    let problem = problem_of(rt, text)?;
    let (cold, hot) = (log_of(marks::all_cold())?, log_of(marks::all_hot())?);
    let start = Instant::now(rt)?;
    let counts = verdicts(&problem, &cold, &hot, count)?;
    let millis = start.elapsed(rt)?.as_millis();
    println!(rt; "{name}: {counts}")?;
    let in_a_second = u128::from(count) * 1000 / millis.max(1);
    eprintln!(rt; "{name}: {count} verdicts in {millis} ms, {in_a_second} in a second")?;
    Ok(())
}

// The problem that a text is.
fn problem_of(rt: &HostRuntime, text: &[u8]) -> Result<Problem> {
    let mut problem = Problem::fresh(rt.alloc())?;
    match read(text, &mut problem, rt.alloc()) {
        Ok(()) => Ok(problem),
        Err(_) => bail!("the problem is not read"),
    }
}

// The log that bytes are.
fn log_of(bytes: &'static [u8]) -> Result<Log<'static>> {
    let mut log = Log::fresh();
    log.read(bytes)
        .map_err(|fault| anyhow!("the log is refused: {fault}"))?;
    Ok(log)
}

// So many verdicts, by one log and the other in turn.
fn verdicts(problem: &Problem, cold: &Log<'_>, hot: &Log<'_>, count: u32) -> Result<Counts> {
    let mut counts = Counts::none();
    for i in 0..count {
        let found = if i % 2 == 0 {
            verdict(problem, cold)
        } else {
            verdict(problem, hot)
        };
        counts.count(found.map_err(|fault| anyhow!("there is no verdict: {fault}"))?);
    }
    Ok(counts)
}
