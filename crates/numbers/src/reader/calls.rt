ghost use Rattle.std.specs.Prelude.{◌≡◌, ◌^◌, ◌<◌, ◌≤◌, length, min, drop, IfOk, MatchResult};
ghost use Rattle.faults.specs.declared.Fault.TheVariants.{TooManyBytes};
ghost use Rattle.numbers.specs.Numbers.{most_bytes, read_at, within, edition_at, left_over, Bytes, Stands, Refuses};
ghost use Rattle.numbers.specs.Lists.{entry};
ghost use Rattle.numbers.specs.Readers.{Answers};

use super::super::entry::Entry;
use super::super::read::{MOST_BYTES, Unread, first_number};
use super::Reader;
use faults::Fault;

impl<'a> Reader<'a> {
    // Reads bytes from their start.
    pub fn new(bytes: &'a [u8]) -> Reader<'a>
        ensures bytes { result.bytes.now ≡ bytes.now }
        ensures start { result.at ≡ 0 }
    {
        Reader { bytes, at: 0 }
    }

    // Reads bytes from their start, if there are not too many.
    pub fn begin(bytes: &'a [u8]) -> Result<Reader<'a>, Fault>
        ensures { MatchResult result (λ r. (length bytes.now ≤ most_bytes) × (r.bytes.now ≡ bytes.now) × (r.at ≡ 0)) (λ f. (most_bytes < length bytes.now) × (f ≡ TooManyBytes)) }
    {
        if bytes.len() > MOST_BYTES {
            return Err(Fault::TooManyBytes);
        }
        Ok(Reader::new(bytes))
    }

    // Reads bytes from one of them on; past the end there are none.
    pub fn starting_at(bytes: &'a [u8], at: usize) -> Reader<'a>
        ensures bytes { result.bytes.now ≡ bytes.now }
        ensures start { result.at ≡ min at (length bytes.now) }
    {
        Reader {
            bytes,
            at: at.min(bytes.len()),
        }
    }

    // The index of the byte that is read next.
    pub fn position(&self) -> usize
        ensures { result ≡ self.now.at }
    {
        self.at
    }

    // Reads a number.
    pub fn number(&mut self) -> Result<u32, Fault>
        ensures same { self.new.bytes.now ≡ self.old.bytes.now }
        ensures value { Answers (read_at self.old.bytes.now self.old.at) self.old.at result self.new.at }
        ensures small { IfOk result (λ n. n < 2 ^ 21) }
        ensures inside { IfOk result (λ _. (self.old.at < self.new.at) × (self.new.at ≤ length self.old.bytes.now)) }
        ensures exact { MatchResult result (λ n. Stands self.old.bytes.now self.old.at n self.new.at) (λ f. Refuses self.old.bytes.now self.old.at f) }
    {
        self.exact_number()
    }

    // What it means that a number stands there, or none.
    fn exact_number(&mut self) -> Result<u32, Fault>
        ensures same { self.new.bytes.now ≡ self.old.bytes.now }
        ensures value { Answers (read_at self.old.bytes.now self.old.at) self.old.at result self.new.at }
        ensures small { IfOk result (λ n. n < 2 ^ 21) }
        ensures inside { IfOk result (λ _. (self.old.at < self.new.at) × (self.new.at ≤ length self.old.bytes.now)) }
        ensures exact { MatchResult result (λ n. Stands self.old.bytes.now self.old.at n self.new.at) (λ f. Refuses self.old.bytes.now self.old.at f) }
    {
        self.next_number()
    }

    // The number that stands there, or why there is none and where.
    fn next_number(&mut self) -> Result<u32, Fault>
        ensures bytes { Bytes (drop self.old.at self.old.bytes.now) }
        ensures same { self.new.bytes.now ≡ self.old.bytes.now }
        ensures value { Answers (read_at self.old.bytes.now self.old.at) self.old.at result self.new.at }
        ensures small { IfOk result (λ n. n < 2 ^ 21) }
        ensures inside { IfOk result (λ _. (self.old.at < self.new.at) × (self.new.at ≤ length self.old.bytes.now)) }
    {
        let first = first_number(&self.bytes[self.at..]).map_err(|why| match why {
            Unread::Ended => Fault::EndsEarly {
                place: self.bytes.len(),
            },
            Unread::NotShortest => Fault::NotShortest { place: self.at },
        })?;
        self.at += first.len;
        Ok(first.value)
    }

    // Reads a number that must lie within limits. It reads ahead and moves on at its end, as the two below do: what the three share
    // is two lines, and a shared function would take the test as a closure.
    pub fn within(&mut self, low: usize, high: usize) -> Result<usize, Fault>
        ensures same { self.new.bytes.now ≡ self.old.bytes.now }
        ensures value { Answers (within self.old.bytes.now self.old.at low high) self.old.at result self.new.at }
        ensures inside { IfOk result (λ n. (low ≤ n) × (n ≤ high) × (self.old.at < self.new.at) × (self.new.at ≤ length self.old.bytes.now)) }
    {
        let mut ahead = *self;
        let number = ahead.number()? as usize;
        if number < low || number > high {
            return Err(Fault::OutsideLimits { place: self.at });
        }
        *self = ahead;
        Ok(number)
    }

    // Reads the edition, which is 1.
    pub fn edition(&mut self) -> Result<(), Fault>
        ensures same { self.new.bytes.now ≡ self.old.bytes.now }
        ensures value { MatchResult result (λ _. edition_at self.old.bytes.now self.old.at ≡ Ok self.new.at) (λ f. (edition_at self.old.bytes.now self.old.at ≡ Err f) × (self.new.at ≡ self.old.at)) }
        ensures inside { IfOk result (λ _. (self.old.at < self.new.at) × (self.new.at ≤ length self.old.bytes.now)) }
    {
        let mut ahead = *self;
        if ahead.number()? != 1 {
            return Err(Fault::UnknownEdition { place: self.at });
        }
        *self = ahead;
        Ok(())
    }

    // Reads a number whose place lies above the ones before it and below the place count.
    pub fn entry<E: Entry>(&mut self, low: usize, places: usize) -> Result<u32, Fault>
        ensures same { self.new.bytes.now ≡ self.old.bytes.now }
        ensures value { Answers (entry E.place_of self.old.bytes.now self.old.at low places) self.old.at result self.new.at }
        ensures inside { IfOk result (λ n. (low ≤ E.place_of n) × (E.place_of n < places) × (self.new.at ≤ length self.old.bytes.now)) }
    {
        let mut ahead = *self;
        let number = ahead.number()?;
        let place = E::place_of(number);
        if place < low || place >= places {
            return Err(Fault::PlaceOutOfOrder { place: self.at });
        }
        *self = ahead;
        Ok(number)
    }

    // Refuses where bytes are left over.
    pub fn finish(self) -> Result<(), Fault>
        ensures { result ≡ left_over self.entry.bytes.now self.entry.at }
    {
        if self.at < self.bytes.len() {
            return Err(Fault::BytesLeftOver { place: self.at });
        }
        Ok(())
    }
}
