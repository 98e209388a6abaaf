//! Reads a controller's log from standard input and says in words what it knows, or why it is refused.
#![tactic(auto)]

use lasso::Instant;
use logs::Log;
use source::Source;
use std::io::Read;
use words::{ChangedAt, KnownAt, Refusal, noun, refuse};

fn main(rt: HostRuntime) -> anyhow::Result<()> {
    let mut bytes = Vec::new(rt.alloc());
    rt.stdin().read_to_end(&mut bytes)?;
    let mut log = Log::fresh();
    match log.read(bytes.as_slice()) {
        Ok(()) => show(&rt, &log, bytes.len()),
        Err(fault) => refuse(&rt, Refusal { fault }),
    }
}

// A line of counts, a line for each instant, and a line for all that comes after.
fn show(rt: &HostRuntime, log: &Log<'_>, count: usize) -> anyhow::Result<()> {
    let (places, instants) = (log.places(), log.loop_start().0);
    let (place_noun, instant_noun) = (
        noun(places, "place", "places"),
        noun(instants, "instant", "instants"),
    );
    println!(rt; "a log of {count} bytes: {places} {place_noun} and {instants} {instant_noun}")?;
    for i in 0..instants {
        let known = KnownAt {
            source: log,
            instant: Instant(i),
        };
        let changed = ChangedAt {
            source: log,
            instant: Instant(i),
        };
        println!(rt; "instant {i}: known [{known}], changed [{changed}]")?;
    }
    println!(rt; "from instant {instants} on nothing is known")?;
    Ok(())
}
