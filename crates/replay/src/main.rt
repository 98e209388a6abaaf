//! Reads a record from standard input and says in words what it holds, or why it is refused.
#![tactic(auto)]

use record::read_record;
use std::io::Read;
use trace::Trace;
use words::{InWords, Refusal, refuse};

fn main(rt: HostRuntime) -> anyhow::Result<()> {
    let mut bytes = Vec::new(rt.alloc());
    let count = rt.stdin().read_to_end(&mut bytes)?;
    let mut trace = Trace::fresh();
    match read_record(bytes.as_slice(), &mut trace) {
        Ok(()) => {
            let shown = InWords { trace: &trace };
            println!(rt; "a record of {count} bytes: {shown}")?;
            Ok(())
        }
        Err(fault) => refuse(&rt, Refusal { fault }),
    }
}
