ghost use Rattle.std.specs.Prelude.{◌≡◌, ◌<◌, Ok, Err, IfOk, MatchResult, if◌then◌else◌, nat_eq};
ghost use Rattle.numbers.specs.Lists.{read as read_to, entry, list};
ghost use Rattle.logs.specs.Logs.{place_of};
ghost use Rattle.logs.specs.Told.{mark_at, after_marks};

use faults::Fault;
use lasso::Value;
use numbers::{Entry, Reader};

// A mark: its place and what it says of it.
#[derive(Clone, Copy)]
struct Mark {
    place: usize,
    value: Value,
}

impl Mark {
    // The value of a place after this mark.
    fn after(self, place: usize, value: Value) -> Value
        ensures { result ≡ (if nat_eq self.place place then self.value else value) }
    {
        if self.place == place {
            self.value
        } else {
            value
        }
    }
}

// A mark is twice the place, and one more if the place is held.
impl Entry for Mark {
    ghost place_of = { place_of };

    fn place_of(number: u32) -> usize {
        (number / 2) as usize
    }
}

// Reads a mark whose place lies above the ones before it and below the place count.
fn read_mark(reader: &mut Reader<'_>, low: usize, places: usize) -> Result<Mark, Fault>
    ensures same { reader.new.bytes.now ≡ reader.old.bytes.now }
    ensures value { MatchResult result (λ m. mark_at reader.old.bytes.now reader.old.at low places ≡ Ok (read_to m reader.new.at)) (λ f. entry place_of reader.old.bytes.now reader.old.at low places ≡ Err f) }
    ensures inside { IfOk result (λ m. m.place < places) }
{
    let number = reader.entry::<Mark>(low, places)?;
    Ok(Mark {
        place: Mark::place_of(number),
        value: Value::from(number % 2 == 1),
    })
}

// Reads the marks of an instant: what they leave of a place that had a value. The record's reader has a loop like this one:
// a shared one would be public and require of its callers a closure that may be called, and a public function requires nothing.
pub(crate) fn read_marks(
    reader: &mut Reader<'_>,
    places: usize,
    place: usize,
    value: Value,
) -> Result<Value, Fault>
    ensures same { reader.new.bytes.now ≡ reader.old.bytes.now }
    ensures value { MatchResult result (λ v. after_marks place value (list place_of reader.old.bytes.now places reader.old.at) ≡ Ok (read_to v reader.new.at)) (λ f. list place_of reader.old.bytes.now places reader.old.at ≡ Err f) }
{
    let count = reader.within(0, places)?;
    let (mut low, mut latest) = (0, value);
    for _done in 0..count {
        let mark = read_mark(reader, low, places)?;
        latest = mark.after(place, latest);
        low = mark.place + 1;
    }
    Ok(latest)
}
