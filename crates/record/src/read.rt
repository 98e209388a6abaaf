ghost use Rattle.std.specs.Prelude.{◌≡◌, ◌+◌, ◌-◌, ◌<◌, ◌≤◌, false, [], length, replicate, IfOk, Ok, Err, MatchResult, OnOk};
ghost use Rattle.trace.specs.Tables.{BlankFrom, NoneOutside, Empty};
ghost use Rattle.numbers.specs.Readers.{Answers};
ghost use Rattle.numbers.specs.Lists.{read as read_to, entry as entry_at, list as list_at, lists as lists_at};
ghost use Rattle.record.specs.Records.{itself, helds, rows_of};
ghost use Rattle.record.specs.Reading.{heading as heading_of, parse, Accepted, Refused};
ghost use Rattle.record.specs.Lassos.{saying_of, heading_as, Fits};

use faults::Fault;
use lasso::{Shape, State};
use numbers::{Entry, Reader};
use trace::{MOST_PLACES, MOST_STATES, Table, Trace, blank};

// What comes before the states.
#[derive(Clone, Copy)]
struct Header {
    places: usize,
    shape: Shape,
}

// What a record says, before it is known whether fewer states would do.
#[derive(Drop)]
struct Lasso {
    places: usize,
    shape: Shape,
    held: Table,
}

// The entries of a record: each number is the place itself.
struct Place;

impl Entry for Place {
    ghost place_of = { itself };

    fn place_of(number: u32) -> usize {
        number as usize
    }
}

// Fills the trace in from its record; or says why the bytes are no record, and leaves the trace as it is.
pub fn read_record(bytes: &[u8], trace: &mut Trace) -> Result<(), Fault>
    ensures { MatchResult result (λ _. Accepted bytes.now trace.new) (λ f. Refused bytes.now f × (trace.new ≡ trace.old)) }
{
    *trace = read_trace(bytes)?;
    Ok(())
}

// The trace of a lasso that was read; none where fewer states would do.
#[tactic(auto, using(crate::proofs::Exact::decided))]
fn read_trace(bytes: &[u8]) -> Result<Trace, Fault>
    ensures { MatchResult result (λ t. Accepted bytes.now t) (λ f. Refused bytes.now f) }
{
    let lasso = read_lasso(bytes)?;
    Trace::new(lasso.places, lasso.shape, lasso.held).ok_or(Fault::FewerStatesWouldDo)
}

// Reads all but whether fewer states would do.
fn read_lasso(bytes: &[u8]) -> Result<Lasso, Fault>
    ensures { MatchResult result (λ l. (parse bytes.now ≡ Ok (saying_of l)) × Fits l) (λ f. parse bytes.now ≡ Err f) }
{
    let mut reader = Reader::begin(bytes)?;
    let header = read_header(&mut reader)?;
    let mut held = blank();
    read_states(&mut reader, header, &mut held)?;
    reader.finish()?;
    Ok(Lasso {
        places: header.places,
        shape: header.shape,
        held,
    })
}

// Reads what comes before the states.
fn read_header(reader: &mut Reader<'_>) -> Result<Header, Fault>
    requires { reader.old.at ≡ 0 }
    ensures same { reader.new.bytes.now ≡ reader.old.bytes.now }
    ensures value { MatchResult result (λ h. heading_of reader.old.bytes.now ≡ Ok (heading_as h reader.new.at)) (λ f. heading_of reader.old.bytes.now ≡ Err f) }
    ensures limits { IfOk result (λ h. (h.places ≤ 768) × (h.shape.states ≤ 8)) }
{
    reader.edition()?;
    let places = reader.within(0, MOST_PLACES)?;
    let states = reader.within(1, MOST_STATES)?;
    let place = reader.position();
    let loop_start = State(reader.number()? as usize);
    let shape = Shape::new(states, loop_start).ok_or(Fault::OutsideLimits { place })?;
    Ok(Header { places, shape })
}

// Reads the states into the table, in which nothing is held yet.
#[tactic(auto, using(crate::proofs::Taken::none_after))]
fn read_states(reader: &mut Reader<'_>, header: Header, held: &mut Table) -> Result<(), Fault>
    requires places { header.places ≤ 768 }
    requires states { header.shape.states ≤ 8 }
    requires blank { BlankFrom 0 held.old }
    requires nothing { NoneOutside 0 0 held.old }
    ensures same { reader.new.bytes.now ≡ reader.old.bytes.now }
    ensures cases { MatchResult result (λ _. lists_at itself reader.old.bytes.now header.places header.shape.states reader.old.at [] ≡ Ok (read_to (rows_of header.shape.states held.new) reader.new.at)) (λ f. lists_at itself reader.old.bytes.now header.places header.shape.states reader.old.at [] ≡ Err f) }
    ensures inside { OnOk result (NoneOutside header.places header.shape.states held.new) }
{
    for row in &mut held[..header.shape.states()] {
        read_state(reader, header.places, row)?;
    }
    Ok(())
}

// Reads the held places of a state into its row, in which nothing is held yet. The reader of logs has a loop like this one: a
// shared one would be public and require a closure that may be called, which one that writes at a place is not for all numbers.
fn read_state(
    reader: &mut Reader<'_>,
    places: usize,
    row: &mut [bool; MOST_PLACES],
) -> Result<(), Fault>
    requires places { places ≤ 768 }
    requires blank { row.old ≡ replicate 768 false }
    ensures same { reader.new.bytes.now ≡ reader.old.bytes.now }
    ensures cases { MatchResult result (λ _. list_at itself reader.old.bytes.now places reader.old.at ≡ Ok (read_to (helds 0 row.new) reader.new.at)) (λ f. list_at itself reader.old.bytes.now places reader.old.at ≡ Err f) }
    ensures inside { IfOk result (λ _. Empty row.new places) }
{
    let count = reader.within(0, places)?;
    let mut low = 0;
    for _done in 0..count {
        let place = read_place(reader, low, places)?;
        row[place] = true;
        low = place + 1;
    }
    Ok(())
}

// Reads a place that lies above the ones before it and below the place count.
fn read_place(reader: &mut Reader<'_>, low: usize, places: usize) -> Result<usize, Fault>
    ensures same { reader.new.bytes.now ≡ reader.old.bytes.now }
    ensures value { Answers (entry_at itself reader.old.bytes.now reader.old.at low places) reader.old.at result reader.new.at }
    ensures inside { IfOk result (λ n. (low ≤ n) × (n < places)) }
{
    Ok(reader.entry::<Place>(low, places)? as usize)
}
