use super::misfit_in_words::MisfitInWords;
use super::verdict_in_words::VerdictInWords;
use anyhow::{Context, ensure};
use logs::Log;
use places::places;
use problem::Problem;
use source::{Blank, Source};
use std::{env, fs};
use verdict::verdict;
use words::{Refusal, refuse};

// Says what is known of the formula, by the log whose file the program is given, or by nothing.
pub(crate) fn tell_verdict(rt: &HostRuntime, problem: &Problem) -> anyhow::Result<()> {
    match log_path(rt)? {
        Some(path) => by_log(rt, problem, path.as_str()),
        None => by_nothing(rt, problem),
    }
}

// The path of the log's file, where the program is given one.
fn log_path(rt: &HostRuntime) -> anyhow::Result<Option<String>> {
    let mut arguments = env::args(rt)?;
    let _program = arguments.next();
    let path = arguments.next();
    ensure!(arguments.next().is_none(), "at most one log's file is read");
    Ok(path)
}

// By a source that knows nothing.
fn by_nothing(rt: &HostRuntime, problem: &Problem) -> anyhow::Result<()> {
    let source = Blank::new(places(problem)).unwrap();
    by_source(rt, problem, &source)
}

// By the log that a file holds.
fn by_log(rt: &HostRuntime, problem: &Problem, path: &str) -> anyhow::Result<()> {
    let bytes = fs::read(rt, path).context(format_args!("reading {path}"))?;
    let mut log = Log::fresh();
    match log.read(bytes.as_slice()) {
        Ok(()) => by_source(rt, problem, &log),
        Err(fault) => {
            let refusal = Refusal { fault };
            refuse(rt, format_args!("the log is {refusal}"))
        }
    }
}

// By a source: the verdict, or why the source does not fit the problem.
fn by_source<S: Source>(rt: &HostRuntime, problem: &Problem, source: &S) -> anyhow::Result<()> {
    match verdict(problem, source) {
        Ok(value) => {
            rt.println(VerdictInWords { value })?;
            Ok(())
        }
        Err(fault) => refuse(rt, MisfitInWords { problem, fault }),
    }
}
