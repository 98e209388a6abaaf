use super::list::write_list;
use super::noun;
use lasso::State;
use std::fmt;
use trace::Trace;

// The places that are held in a state, with commas between them.
#[derive(Drop)]
pub struct HeldIn<'a> {
    pub trace: &'a Trace,
    pub state: State,
}

impl fmt::Display for HeldIn<'_> {
    fn fmt<W: fmt::Write>(&self, f: &mut fmt::Formatter<W>) -> fmt::Result {
        let held = (0..self.trace.places()).filter(|place| self.trace.held(*place, self.state));
        write_list(f, held)
    }
}

// A trace in words: its counts, a line for each state, and where the loop goes back.
#[derive(Drop)]
pub struct InWords<'a> {
    pub trace: &'a Trace,
}

impl fmt::Display for InWords<'_> {
    fn fmt<W: fmt::Write>(&self, f: &mut fmt::Formatter<W>) -> fmt::Result {
        let (places, states) = (self.trace.places(), self.trace.states());
        let (place_noun, state_noun) = (
            noun(places, "place", "places"),
            noun(states, "state", "states"),
        );
        writeln!(
            f,
            "a trace of {places} {place_noun} and {states} {state_noun}"
        )?;
        for s in 0..states {
            state_in_words(self.trace, State(s), f)?;
        }
        let (last, start) = (states - 1, self.trace.loop_start().0);
        write!(
            f,
            "after state {last} it goes back to state {start}, and so on for ever"
        )
    }
}

// A line of words for a state.
fn state_in_words<W: fmt::Write>(
    trace: &Trace,
    state: State,
    f: &mut fmt::Formatter<W>,
) -> fmt::Result {
    let s = state.0;
    if holds_nothing(trace, state) {
        return writeln!(f, "state {s}: nothing is held");
    }
    let held = HeldIn { trace, state };
    writeln!(f, "state {s}: held {held}")
}

// Whether no place is held in a state.
fn holds_nothing(trace: &Trace, state: State) -> bool {
    !(0..trace.places()).any(|place| trace.held(place, state))
}
