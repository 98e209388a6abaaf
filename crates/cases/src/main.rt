//! Answers one case a line, for tests from outside.
#![tactic(auto)]

mod answer;
mod hex;
mod judgement;
mod kind;
mod lines;

use answer::Answer;
use lines::cut;
use std::io::Read;

fn main(rt: HostRuntime) -> anyhow::Result<()> {
    let mut input = Vec::new(rt.alloc());
    rt.stdin().read_to_end(&mut input)?;
    let mut rest = input.as_slice();
    'lines: while !rest.is_empty() {
        let (line, after) = cut(rest, b'\n');
        let answer = Answer::to(line, rt.alloc())?;
        rt.println(answer)?;
        rest = after;
    }
    Ok(())
}
