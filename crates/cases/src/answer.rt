ghost use Rattle.std.specs.Prelude.{◌≡◌, ℕ, List, IfOk, Decides, MatchOption};
ghost use Rattle.cases.specs.Hex.{Hex, OfBytes, NoHex};
ghost use Rattle.cases.specs.Lines.{Cut};
ghost use Rattle.cases.specs.Answers.{ReadAs, ToRecord, ToLog, ToText, Answers};
ghost use Rattle.cases.specs.Judgements.{OfPair, ToPair, ToSource};

use super::hex::bytes_of;
use super::judgement::{NoVerdict, by_log, by_nothing};
use super::kind::Kind;
use super::lines::cut;
use faults::Fault;
use lasso::{Instant, State, Value};
use logs::Log;
use problem::Problem;
use reader::{Refusal, read};
use record::read_record;
use source::Source;
use std::alloc::{AllocError, Global};
use std::fmt::{self, Write};
use trace::Trace;
use words::{HeldIn, KnownAt};

// What is answered to a case.
#[derive(Drop)]
pub enum Answer {
    Held(Trace),
    Known(String),
    Accepted,
    Refused(Fault),
    Judged(Result<Value, NoVerdict>),
    Unknown,
}

impl Answer {
    // The answer to a line: its first word says the kind of case.
    pub fn to(line: &[u8], heap: Global) -> Result<Answer, AllocError>
        ensures { IfOk result (λ a. (word : List ℕ) × (text : List ℕ) × Cut line.now 32 word text × Answers word text a) }
    {
        let (word, text) = cut(line, b' ');
        to_case(word, text, heap)
    }
}

// The answer to a case of a kind.
fn to_case(word: &[u8], text: &[u8], heap: Global) -> Result<Answer, AllocError>
    ensures { IfOk result (λ a. Answers word.now text.now a) }
{
    match Kind::of(word) {
        Some(Kind::Record) => to_record(text, heap),
        Some(Kind::Log) => to_log(text, heap),
        Some(Kind::Text) => to_text(text, heap),
        Some(Kind::Verdict) => to_pair(text, heap),
        None => Ok(Answer::Unknown),
    }
}

// Whether two words are the same: `==`, with what it means as a contract, which the search needs of a literal's bytes.
fn is_word(word: &[u8], other: &[u8]) -> bool
    ensures { Decides result (word.now ≡ other.now) }
{
    word == other
}

// The answer to a record in hexadecimal.
fn to_record(text: &[u8], heap: Global) -> Result<Answer, AllocError>
    ensures { IfOk result (λ a. ToRecord text.now a) }
{
    let Some(bytes) = bytes_of(text, heap)? else {
        return Ok(Answer::Unknown);
    };
    let mut trace = Trace::fresh();
    match read_record(bytes.as_slice(), &mut trace) {
        Ok(()) => Ok(Answer::Held(trace)),
        Err(fault) => Ok(Answer::Refused(fault)),
    }
}

// The answer to a log in hexadecimal.
fn to_log(text: &[u8], heap: Global) -> Result<Answer, AllocError>
    ensures { IfOk result (λ a. ToLog text.now a) }
{
    match bytes_of(text, heap)? {
        Some(bytes) => to_log_bytes(bytes.as_slice(), heap),
        None => Ok(Answer::Unknown),
    }
}

// The line is made here, since an answer cannot borrow the bytes.
fn to_log_bytes(bytes: &[u8], heap: Global) -> Result<Answer, AllocError>
    ensures { IfOk result (λ a. (text : List ℕ) → Hex text bytes.now → ToLog text a) }
{
    let mut log = Log::fresh();
    match log.read(bytes) {
        Ok(()) => Ok(Answer::Known(known_line(&log, heap)?)),
        Err(fault) => Ok(Answer::Refused(fault)),
    }
}

// What a log knows at each of its instants.
fn known_line(log: &Log<'_>, heap: Global) -> Result<String, AllocError> {
    let (places, instants) = (log.places(), log.loop_start().0);
    let mut line = format!(in heap; "ok {places} {instants}")?;
    for i in 0..instants {
        let known = KnownAt {
            source: log,
            instant: Instant(i),
        };
        write!(line, " [{known}]")?;
    }
    Ok(line)
}

// The problem that a text in hexadecimal is, or its refusal; none where it is no hexadecimal.
fn problem_in(text: &[u8], heap: Global) -> Result<Option<Result<Problem, Fault>>, AllocError>
    ensures { IfOk result (λ o. MatchOption o (NoHex text.now) (λ r. OfBytes text.now (λ bytes. ReadAs bytes r))) }
{
    let Some(bytes) = bytes_of(text, heap)? else {
        return Ok(None);
    };
    let mut problem = Problem::fresh(heap)?;
    match read(bytes.as_slice(), &mut problem, heap) {
        Ok(()) => Ok(Some(Ok(problem))),
        Err(Refusal::Fault(fault)) => Ok(Some(Err(fault))),
        Err(Refusal::Memory(wanting)) => Err(wanting),
    }
}

// The answer to a problem text in hexadecimal.
fn to_text(text: &[u8], heap: Global) -> Result<Answer, AllocError>
    ensures { IfOk result (λ a. ToText text.now a) }
{
    match problem_in(text, heap)? {
        Some(Ok(_)) => Ok(Answer::Accepted),
        Some(Err(fault)) => Ok(Answer::Refused(fault)),
        None => Ok(Answer::Unknown),
    }
}

// The answer to a problem text and a log, both in hexadecimal, with a space between them.
fn to_pair(text: &[u8], heap: Global) -> Result<Answer, AllocError>
    ensures { IfOk result (λ a. OfPair text.now a) }
{
    let (word, log) = cut(text, b' ');
    to_verdict(word, log, heap)
}

// The answer to a problem text and a log, both in hexadecimal.
fn to_verdict(text: &[u8], log: &[u8], heap: Global) -> Result<Answer, AllocError>
    ensures { IfOk result (λ a. ToPair text.now log.now a) }
{
    match problem_in(text, heap)? {
        Some(Ok(problem)) => to_source(&problem, log, heap),
        Some(Err(fault)) => Ok(Answer::Judged(Err(NoVerdict::TextRefused(fault)))),
        None => Ok(Answer::Unknown),
    }
}

// The answer to a problem and a log in hexadecimal; a dash stands for a source that knows nothing.
fn to_source(problem: &Problem, log: &[u8], heap: Global) -> Result<Answer, AllocError>
    ensures { IfOk result (λ a. ToSource problem.now log.now a) }
{
    if is_word(log, b"-") {
        return Ok(Answer::Judged(by_nothing(problem)));
    }
    match bytes_of(log, heap)? {
        Some(bytes) => Ok(Answer::Judged(by_log(problem, bytes.as_slice()))),
        None => Ok(Answer::Unknown),
    }
}

impl fmt::Display for Answer {
    fn fmt<W: fmt::Write>(&self, f: &mut fmt::Formatter<W>) -> fmt::Result {
        match self {
            Answer::Held(trace) => show_trace(trace, f),
            Answer::Known(line) => f.write_str(line.as_str()),
            Answer::Accepted => f.write_str("accepted"),
            Answer::Refused(fault) => write!(f, "refused {} at {}", fault.number(), fault.place()),
            Answer::Judged(Ok(verdict)) => write!(f, "{verdict}"),
            Answer::Judged(Err(why)) => write!(f, "{why}"),
            Answer::Unknown => f.write_str("unknown"),
        }
    }
}

// The counts of a trace, and for each state the held places.
fn show_trace<W: fmt::Write>(trace: &Trace, f: &mut fmt::Formatter<W>) -> fmt::Result {
    let states = trace.states();
    write!(f, "ok {} {states} {}", trace.places(), trace.loop_start().0)?;
    // Tried: one function for this loop and that of `known_line`. A `String` fails with an `AllocError`, which is not made from a `fmt::Error`.
    for s in 0..states {
        let held = HeldIn {
            trace,
            state: State(s),
        };
        write!(f, " [{held}]")?;
    }
    Ok(())
}
