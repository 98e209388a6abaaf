ghost use Rattle.std.specs.Prelude.{◌≡◌, ◌<◌, ◌≤◌, length, min, slice_index};
ghost use Rattle.judge.specs.Lines.{feeds, OneLine, Begins, Ends, StandsAt};

// Where a place stands in a text: its line and its column, counted from 1, and where this line begins and ends.
#[derive(Clone, Copy)]
pub struct PlaceInText {
    pub line: usize,
    pub column: usize,
    pub start: usize,
    pub end: usize,
}

// Where a place stands; the end of the text is a place, too, and stands for all beyond it.
pub(crate) fn place_in_text(text: &[u8], place: usize) -> PlaceInText
    ensures { StandsAt text.now (min place (length text.now)) result }
{
    let place = place.min(text.len());
    let start = start_of(text, place);
    PlaceInText {
        line: 1 + count_feeds(&text[..place]),
        column: 1 + (place - start),
        start,
        end: end_of(text, place),
    }
}

// How many lines are ended.
fn count_feeds(text: &[u8]) -> usize
    ensures value { result ≡ feeds text.now }
    ensures few { result ≤ length text.now }
{
    text.iter().filter(|b| **b == b'\n').count()
}

// Where the line of a place begins.
fn start_of(text: &[u8], place: usize) -> usize
    requires { place ≤ length text.now }
    ensures { Begins text.now place result }
{
    text[..place]
        .iter()
        .rposition(|b| *b == b'\n')
        .map_or(0, |last| last + 1)
}

// Where the line of a place ends.
fn end_of(text: &[u8], place: usize) -> usize
    requires { place ≤ length text.now }
    ensures { Ends text.now place result }
{
    place + before_feed(&text[place..])
}

// How many bytes stand before the first line feed.
fn before_feed(text: &[u8]) -> usize
    ensures inside { result ≤ length text.now }
    ensures feed { result < length text.now → slice_index text.now result ≡ 10 }
    ensures none { OneLine text.now 0 result }
{
    text.iter().position(|b| *b == b'\n').unwrap_or(text.len())
}
