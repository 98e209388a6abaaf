use super::misfit_in_words::MisfitInWords;
use super::report::Refused;
use super::verdict_in_words::VerdictInWords;
use faults::Fault;
use lasso::{Instant, Value};
use problem::Problem;
use reader::read;

// A tab before the place, a byte that is no ASCII, and a carriage return at the end of the line.
#[test]
fn a_mark_under_the_place(rt: HostRuntime) -> anyhow::Result<()> {
    let text = b"atoms a;\n\thorizon\xff 9;\r\nformula";
    let fault = Fault::NoToken { place: 17 };
    let shown = format!(in rt.alloc(); "{}", Refused { text, fault })?;
    let wanted =
        "refused 2 at 17: this byte begins no name, number or sign\nline 2, column 9\n horizon? 9; \n        ^\n";
    assert!(&rt; shown.as_str() == wanted);
    Ok(())
}

// The end of a text that ends in a line feed stands on a line of its own; a place beyond the text counts as its end.
#[test]
fn the_end_of_the_text(rt: HostRuntime) -> anyhow::Result<()> {
    let text = b"atoms a\n";
    let fault = Fault::NotAllowed { place: 8 };
    let shown = format!(in rt.alloc(); "{}", Refused { text, fault })?;
    assert!(&rt;
        shown.as_str() == "refused 4 at 8: this cannot stand here\nline 2, column 1\n\n^\n"
    );
    let fault = Fault::NotAllowed { place: 99 };
    let shown = format!(in rt.alloc(); "{}", Refused { text, fault })?;
    assert!(&rt;
        shown.as_str() == "refused 4 at 99: this cannot stand here\nline 2, column 1\n\n^\n"
    );
    Ok(())
}

// A contradiction names the tuple and the instant; differing place counts name nothing.
#[test]
fn why_a_source_does_not_fit(rt: HostRuntime) -> anyhow::Result<()> {
    let mut problem = Problem::fresh(rt.alloc())?;
    let text = b"atoms a b c; rel q : 1 {} {}; var used : 2 {} {(b c)}; horizon 1; formula no q";
    assert!(&rt; read(text, &mut problem, rt.alloc()).is_ok());
    let clash = MisfitInWords {
        problem: &problem,
        fault: Fault::Contradiction {
            place: 8,
            instant: Instant(2),
        },
    };
    let shown = format!(in rt.alloc(); "{clash}")?;
    assert!(&rt;
        shown.as_str()
            == "refused 20 at 8: the source contradicts the bounds or itself at this place: used(b c) at instant 2"
    );
    let counts = MisfitInWords {
        problem: &problem,
        fault: Fault::PlaceCountsDiffer,
    };
    let shown = format!(in rt.alloc(); "{counts}")?;
    assert!(&rt;
        shown.as_str() == "refused 19 at 0: the problem and the source differ in their place counts"
    );
    Ok(())
}

// Each verdict and what it means.
#[test]
fn each_verdict_in_words(rt: HostRuntime) -> anyhow::Result<()> {
    let shown = format!(in rt.alloc(); "{}", VerdictInWords { value: Value::No })?;
    assert!(&rt; shown.as_str() == "verdict: no\nno behaviour that is possible meets the formula");
    let shown = format!(in rt.alloc(); "{}", VerdictInWords { value: Value::Open })?;
    assert!(&rt; shown.as_str() == "verdict: open\nwhat is known does not settle the formula");
    let shown = format!(in rt.alloc(); "{}", VerdictInWords { value: Value::Yes })?;
    assert!(&rt;
        shown.as_str() == "verdict: yes\nevery behaviour that is possible meets the formula"
    );
    Ok(())
}
