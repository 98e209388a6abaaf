use lasso::{Instant, Shape, State, Value};
use logs::Log;
use source::{Blank, FirstInstants, Source};
use std::process::Abort;
use std::test::Fail;
use telling::told_at;
use trace::{Trace, blank};

// What the first four instants of one place tell.
fn check_told<S: Source>(rt: &impl Abort, source: &S, expected: [Value; 4]) -> Result<(), Fail> {
    assert_eq!(rt; source.places(), 1);
    assert_eq!(rt; told_at(source, 0, Instant(0)), expected[0]);
    assert_eq!(rt; told_at(source, 0, Instant(1)), expected[1]);
    assert_eq!(rt; told_at(source, 0, Instant(2)), expected[2]);
    assert_eq!(rt; told_at(source, 0, Instant(3)), expected[3]);
    assert_eq!(rt; told_at(source, 1, Instant(0)), Value::Open);
    Ok(())
}

// Not held and held in turn, for ever.
fn in_turn() -> Option<Trace> {
    let mut held = blank();
    held[1][0] = true;
    Trace::new(1, Shape::new(2, State(0))?, held)
}

#[test]
fn a_log_says_no_no_yes_and_then_nothing(rt: HostRuntime) -> Result<(), Fail> {
    let mut log = Log::fresh();
    match log.read(&[1, 1, 3, 1, 0, 0, 1, 1]) {
        Ok(()) => check_told(&rt, &log, [Value::No, Value::No, Value::Yes, Value::Open]),
        Err(_) => Err(Fail::new("refused")),
    }
}

#[test]
fn a_refused_log_stays_as_it_was(rt: HostRuntime) -> Result<(), Fail> {
    let mut log = Log::fresh();
    match log.read(&[1, 1, 17]) {
        Ok(()) => Err(Fail::new("accepted")),
        Err(fault) => {
            assert_eq!(rt; fault.number(), 14);
            assert_eq!(rt; fault.place(), 2);
            assert_eq!(rt; log.places(), 0);
            Ok(())
        }
    }
}

#[test]
fn the_blank_source_knows_nothing(rt: HostRuntime) -> Result<(), Fail> {
    match Blank::new(1) {
        Ok(source) => check_told(
            &rt,
            &source,
            [Value::Open, Value::Open, Value::Open, Value::Open],
        ),
        Err(_) => Err(Fail::new("refused")),
    }
}

#[test]
fn too_many_places_are_refused(rt: HostRuntime) -> Result<(), Fail> {
    match Blank::new(769) {
        Ok(_) => Err(Fail::new("accepted")),
        Err(fault) => {
            assert_eq!(rt; fault.number(), 25);
            Ok(())
        },
    }
}

#[test]
fn a_trace_tells_its_endless_path(rt: HostRuntime) -> Result<(), Fail> {
    match in_turn() {
        Some(trace) => check_told(&rt, &trace, [Value::No, Value::Yes, Value::No, Value::Yes]),
        None => Err(Fail::new("no trace")),
    }
}

#[test]
fn first_instants_go_round_the_loop(rt: HostRuntime) -> Result<(), Fail> {
    let Some(trace) = in_turn() else {
        return Err(Fail::new("no trace"));
    };
    match FirstInstants::new(3) {
        Ok(first) => check_told(
            &rt,
            &first.of(&trace),
            [Value::No, Value::Yes, Value::No, Value::Open],
        ),
        Err(_) => Err(Fail::new("refused")),
    }
}

#[test]
fn seventeen_instants_are_refused(rt: HostRuntime) -> Result<(), Fail> {
    match FirstInstants::new(17) {
        Ok(_) => Err(Fail::new("accepted")),
        Err(fault) => {
            assert_eq!(rt; fault.number(), 25);
            Ok(())
        },
    }
}
