ghost use Rattle.std.specs.Prelude.{◌≡◌, ℕ, ◌+◌, ◌<◌, ◌≤◌, true, [], length, take, is_ok, IfOk, Ok, Err, MatchResult};
ghost use Rattle.lasso.specs.declared.value.Value.TheVariants.{Open};
ghost use Rattle.numbers.specs.Lists.{read as read_to, list, lists};
ghost use Rattle.source.specs.Meanings.{Kept};
ghost use Rattle.logs.specs.Logs.{place_of, heading as heading_of, parse, said};
ghost use Rattle.logs.specs.Meanings.{latest_of, known, log_meaning};
ghost use Rattle.logs.specs.Told.{after_marks, Refused, IsRead};
ghost use Rattle.logs.specs.Heads.{heading_as, MarksTo, Headed};

use super::super::marks::read_marks;
use super::Log;
use faults::Fault;
use lasso::{State, Value};
use numbers::Reader;
use source::{MOST_INSTANTS, MOST_PLACES, Source};

// What comes before the marks.
#[derive(Clone, Copy)]
struct Header {
    places: usize,
    instants: usize,
}

// Reads what comes before the marks.
fn read_header(reader: &mut Reader<'_>) -> Result<Header, Fault>
    requires { reader.old.at ≡ 0 }
    ensures same { reader.new.bytes.now ≡ reader.old.bytes.now }
    ensures value { MatchResult result (λ h. heading_of reader.old.bytes.now ≡ Ok (heading_as h reader.new.at)) (λ f. heading_of reader.old.bytes.now ≡ Err f) }
    ensures limits { IfOk result (λ h. (h.places ≤ 768) × (h.instants ≤ 16)) }
{
    reader.edition()?;
    Ok(Header {
        places: reader.within(0, MOST_PLACES)?,
        instants: reader.within(0, MOST_INSTANTS)?,
    })
}

// Reads the marks of all instants.
fn read_instants(reader: &mut Reader<'_>, header: Header) -> Result<(), Fault>
    ensures same { reader.new.bytes.now ≡ reader.old.bytes.now }
    ensures marks { MatchResult result (λ _. MarksTo reader.old.bytes.now (heading_as header reader.old.at) reader.new.at) (λ f. lists place_of reader.old.bytes.now header.places header.instants reader.old.at [] ≡ Err f) }
{
    for _done in 0..header.instants {
        read_marks(reader, header.places, 0, Value::Open)?;
    }
    Ok(())
}

// Whether the bytes are a log.
fn parsed(bytes: &[u8]) -> Result<(), Fault>
    ensures { MatchResult result (λ _. is_ok (parse bytes.now) ≡ true) (λ f. parse bytes.now ≡ Err f) }
{
    let mut reader = Reader::begin(bytes)?;
    let header = read_header(&mut reader)?;
    read_instants(&mut reader, header)?;
    reader.finish()
}

// What it means that bytes are a log, or are none.
fn checked(bytes: &[u8]) -> Result<(), Fault>
    ensures { MatchResult result (λ _. IsRead bytes.now) (λ f. Refused bytes.now f) }
{
    parsed(bytes)
}

// Reads the header of bytes that are a log.
#[tactic(auto, using(crate::proofs::Parses::headed))]
fn sure_header(reader: &mut Reader<'_>) -> Header
    requires is_log { is_ok (parse reader.old.bytes.now) ≡ true }
    requires start { reader.old.at ≡ 0 }
    ensures same { reader.new.bytes.now ≡ reader.old.bytes.now }
    ensures headed { Headed reader.old.bytes.now result reader.new.at }
{
    read_header(reader).unwrap()
}

// The header of a log that was read.
fn header_of(log: &Log<'_>) -> Header
    ensures { (next : ℕ) × Headed log.now.bytes.now result next }
{
    sure_header(&mut Reader::new(log.bytes))
}

impl<'a> Log<'a> {
    // The log that says nothing: no place and no instant.
    pub fn fresh() -> Log<'a>
        ensures places { (said result.bytes.now).places ≡ 0 }
        ensures instants { (said result.bytes.now).instants ≡ 0 }
    {
        Log { bytes: &[1, 0, 0] }
    }

    // Fills the log in from bytes, which it goes on borrowing; or says why they are no log, and leaves it as it is.
    pub fn read(&mut self, bytes: &'a [u8]) -> Result<(), Fault>
        ensures { MatchResult result (λ _. IsRead bytes.now × (self.new.bytes.now ≡ bytes.now)) (λ f. Refused bytes.now f × (self.new ≡ self.old)) }
    {
        checked(bytes)?;
        *self = Log { bytes };
        Ok(())
    }
}

impl<'a> Source for Log<'a> {
    ghost meaning = { λ l. log_meaning (said l.bytes.now) };

    fn places(&self) -> usize {
        header_of(self).places
    }

    fn states(&self) -> usize {
        header_of(self).instants + 1
    }

    fn loop_start(&self) -> State {
        State(header_of(self).instants)
    }

    fn value(&self, place: usize, state: State) -> Value {
        value_in(self, place, state.0)
    }
}

// The value of a place in a state: open beyond the counts, and in the last state.
fn value_in(log: &Log<'_>, place: usize, state: usize) -> Value
    ensures value { result ≡ (log_meaning (said log.now.bytes.now)).value place state }
    ensures kept { Kept (log_meaning (said log.now.bytes.now)) }
{
    let mut reader = Reader::new(log.bytes);
    let header = sure_header(&mut reader);
    if place >= header.places || state >= header.instants {
        return Value::Open;
    }
    latest_at(&mut reader, header, place, state)
}

// The value of the latest mark of a place, up to an instant of the log, read from the first mark on.
fn latest_at(reader: &mut Reader<'_>, header: Header, place: usize, instant: usize) -> Value
    requires headed { Headed reader.old.bytes.now header reader.old.at }
    requires inside { instant < header.instants }
    ensures { result ≡ latest_of place Open (take (instant + 1) (said reader.old.bytes.now).marks) }
{
    let mut value = Value::Open;
    // Tried: `fold`. Its closure writes the reader, and says nothing of how far that is read: what `sure_marks` asks was left to show.
    for _done in 0..instant + 1 {
        value = sure_marks(reader, header.places, place, value);
    }
    value
}

// Reads the marks of an instant where they are known to be in order.
fn sure_marks(reader: &mut Reader<'_>, places: usize, place: usize, value: Value) -> Value
    requires { is_ok (list place_of reader.old.bytes.now places reader.old.at) ≡ true }
    ensures same { reader.new.bytes.now ≡ reader.old.bytes.now }
    ensures value { after_marks place value (list place_of reader.old.bytes.now places reader.old.at) ≡ Ok (read_to result reader.new.at) }
{
    read_marks(reader, places, place, value).unwrap()
}
