use super::list::write_list;
use lasso::{Instant, Value};
use source::Source;
use std::fmt;
use telling::told_at;

// A place and its value, as `3=yes`.
#[derive(Drop)]
struct Known {
    place: usize,
    value: Value,
}

impl Known {
    // What a source knows of a place at an instant.
    fn of<S: Source>(source: &S, place: usize, instant: Instant) -> Known {
        Known {
            place,
            value: told_at(source, place, instant),
        }
    }
}

impl fmt::Display for Known {
    fn fmt<W: fmt::Write>(&self, f: &mut fmt::Formatter<W>) -> fmt::Result {
        let Known { place, value } = self;
        write!(f, "{place}={value}")
    }
}

// The places that a source knows at an instant and how, as `0=no,3=yes`.
#[derive(Drop)]
pub struct KnownAt<'s, S: Source> {
    pub source: &'s S,
    pub instant: Instant,
}

impl<S: Source> fmt::Display for KnownAt<'_, S> {
    fn fmt<W: fmt::Write>(&self, f: &mut fmt::Formatter<W>) -> fmt::Result {
        let known = (0..self.source.places())
            .map(|place| Known::of(self.source, place, self.instant))
            .filter(|known| known.value != Value::Open);
        write_list(f, known)
    }
}

// The places that a source knows otherwise at an instant than at the one before it, at the first one all that it knows.
#[derive(Drop)]
pub struct ChangedAt<'s, S: Source> {
    pub source: &'s S,
    pub instant: Instant,
}

impl<S: Source> fmt::Display for ChangedAt<'_, S> {
    fn fmt<W: fmt::Write>(&self, f: &mut fmt::Formatter<W>) -> fmt::Result {
        let changed = (0..self.source.places())
            .map(|place| Known::of(self.source, place, self.instant))
            .filter(|known| known.value != before(self.source, known.place, self.instant));
        write_list(f, changed)
    }
}

// What was known of a place an instant before; before the first instant nothing.
fn before<S: Source>(source: &S, place: usize, instant: Instant) -> Value {
    instant.0.checked_sub(1).map_or(
        Value::Open,
        |earlier| told_at(source, place, Instant(earlier)),
    )
}
