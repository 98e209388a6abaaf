ghost use Rattle.std.specs.Prelude.{◌≡◌, ◌+◌, ◌^◌, ◌<◌, ◌≤◌, length, sum_by, MatchResult};
ghost use Rattle.std.specs.List.{filter, enumerate_from};
ghost use Rattle.trace.specs.Tables.{most_places};
ghost use Rattle.numbers.specs.Numbers.{encode, over};
ghost use Rattle.numbers.specs.Lists.{list_bytes};
ghost use Rattle.record.specs.Records.{helds, said, header_of, record_of};
ghost use Rattle.record.specs.Reading.{Wrote, NoRoom};
ghost use Rattle.record.specs.Writing.{state_of, front, Goes, place_bytes};

use faults::Fault;
use numbers::{number_len, write_number};
use trace::{MOST_PLACES, Trace};

// Writes the record of a trace at the start of the buffer, and says how many bytes it has; the bytes beyond stay.
pub fn write_record(trace: &Trace, buffer: &mut [u8]) -> Result<usize, Fault>
    ensures { MatchResult result (λ len. Wrote trace.now buffer.old buffer.new len) (λ f. NoRoom trace.now buffer.old buffer.new f) }
{
    if buffer.len() < record_len(trace) {
        return Err(Fault::BufferTooShort);
    }
    Ok(put_record(trace, buffer))
}

// What is written reads back.
fn put_record(trace: &Trace, buffer: &mut [u8]) -> usize
    requires { length (record_of (said trace.now)) ≤ length buffer.old }
    ensures { Wrote trace.now buffer.old buffer.new result }
{
    put_states(trace, buffer)
}

// Writes the header, and then lends what is left of the buffer, from its middle, to the writer of one state. So no writer holds the
// buffer and the index together.
#[tactic(auto, using(crate::proofs::Written::state_then, crate::proofs::Written::state_room))]
fn put_states(trace: &Trace, buffer: &mut [u8]) -> usize
    requires { length (record_of (said trace.now)) ≤ length buffer.old }
    ensures len { result ≡ length (record_of (said trace.now)) }
    ensures after { buffer.new ≡ over (record_of (said trace.now)) buffer.old }
{
    let mut at = put_header(trace, buffer);
    for row in &trace.table()[..trace.states()] {
        at += put_state(row, &mut buffer[at..]);
    }
    at
}

// Writes what comes before the states.
fn put_header(trace: &Trace, buffer: &mut [u8]) -> usize
    requires { length (header_of trace.now) ≤ length buffer.old }
    ensures len { result ≡ length (header_of trace.now) }
    ensures after { buffer.new ≡ over (header_of trace.now) buffer.old }
{
    let mut at = put_number(1, buffer);
    at += put_number(trace.places() as u16, &mut buffer[at..]);
    at += put_number(trace.states() as u16, &mut buffer[at..]);
    at += put_number(trace.loop_start().0 as u16, &mut buffer[at..]);
    at
}

// Writes one state, into what is left of the buffer: how many places it holds, and these.
fn put_state(row: &[bool; MOST_PLACES], buffer: &mut [u8]) -> usize
    requires { length (list_bytes (helds 0 row.now)) ≤ length buffer.old }
    ensures len { result ≡ length (list_bytes (helds 0 row.now)) }
    ensures after { buffer.new ≡ over (list_bytes (helds 0 row.now)) buffer.old }
{
    let at = put_number(count(row) as u16, buffer);
    put_places(row, at, buffer)
}

// Writes the held places of a state behind their count. By index, so that another order of the places fails in the code.
fn put_places(row: &[bool; MOST_PLACES], start: usize, buffer: &mut [u8]) -> usize
    requires room { length (state_of row.now) ≤ length buffer.old }
    requires start { start ≡ length (front row.now 0) }
    ensures { Goes (front row.now 0) buffer.old start (front row.now most_places) buffer.new result }
{
    let mut at = start;
    for place in 0..MOST_PLACES {
        at = put_next(row, place, at, buffer);
    }
    at
}

// Writes a place if it is held, behind those before it: the index of the byte after what is written so far.
fn put_next(row: &[bool; MOST_PLACES], place: usize, at: usize, buffer: &mut [u8]) -> usize
    requires room { length (state_of row.now) ≤ length buffer.old }
    requires place { place < most_places }
    requires at { at ≡ length (front row.now place) }
    ensures end { result ≡ length (front row.now (place + 1)) }
    ensures goes { Goes (front row.now place) buffer.old at (front row.now (place + 1)) buffer.new result }
{
    at + put_place(place, row[place], &mut buffer[at..])
}

// Writes a place if it is held.
fn put_place(place: usize, held: bool, buffer: &mut [u8]) -> usize
    requires place { place < most_places }
    requires room { length (place_bytes place held) ≤ length buffer.old }
    ensures len { result ≡ length (place_bytes place held) }
    ensures after { buffer.new ≡ over (place_bytes place held) buffer.old }
{
    if !held {
        return 0;
    }
    put_number(place as u16, buffer)
}

// Writes a number where there is room for it.
fn put_number(n: u16, buffer: &mut [u8]) -> usize
    requires { length (encode n) ≤ length buffer.old }
    ensures len { result ≡ length (encode n) }
    ensures after { buffer.new ≡ over (encode n) buffer.old }
{
    write_number(n, buffer).unwrap()
}

// How many bytes the record of a trace has.
#[tactic(auto, using(crate::proofs::Written::record_sum, crate::proofs::Written::states_bound))]
fn record_len(trace: &Trace) -> usize
    ensures { result ≡ length (record_of (said trace.now)) }
{
    header_len(trace) + states_len(&trace.table()[..trace.states()])
}

// How many bytes some states have.
fn states_len(rows: &[[bool; MOST_PLACES]]) -> usize
    requires { sum_by (λ row. length (list_bytes (helds 0 row))) rows.now < 2 ^ 64 }
    ensures { result ≡ sum_by (λ row. length (list_bytes (helds 0 row))) rows.now }
{
    rows.iter().map(state_len).sum()
}

// How many bytes come before the states.
fn header_len(trace: &Trace) -> usize
    ensures value { result ≡ length (header_of trace.now) }
    ensures few { result ≤ 12 }
{
    number_len(1)
        + number_len(trace.places() as u16)
        + number_len(trace.states() as u16)
        + number_len(trace.loop_start().0 as u16)
}

// How many bytes a state has.
#[tactic(auto, using(crate::proofs::Written::state_sum, crate::proofs::Written::places_bound))]
fn state_len(row: &[bool; MOST_PLACES]) -> usize
    ensures { result ≡ length (list_bytes (helds 0 row.now)) }
{
    number_len(count(row) as u16) + places_len(row)
}

// How many bytes the held places of a state have.
fn places_len(row: &[bool]) -> usize
    requires bound { sum_by (λ x. length (encode x.0)) (filter (λ x. x.1) (enumerate_from 0 row.now)) < 2 ^ 64 }
    requires few { length row.now ≤ 768 }
    ensures { result ≡ sum_by (λ x. length (encode x.0)) (filter (λ x. x.1) (enumerate_from 0 row.now)) }
{
    row.iter()
        .enumerate()
        .filter(|(_, held)| **held)
        .map(|(place, _)| number_len(place as u16))
        .sum()
}

// How many places a state holds.
#[tactic(auto, using(crate::proofs::Rows::count_held))]
fn count(row: &[bool; MOST_PLACES]) -> usize
    ensures value { result ≡ length (helds 0 row.now) }
    ensures few { result ≤ most_places }
{
    row.iter().filter(|held| **held).count()
}
