//! Sources of knowledge: what is known of a behaviour, place by place and instant by instant.
#![tactic(auto)]

ghost use Rattle.std.specs.Prelude.{◌≡◌};
ghost use Rattle.source.specs.Meanings.{Meaning, Kept};

mod blank;
mod first;
mod of_trace;

pub use blank::Blank;
pub use first::{FirstInstants, MOST_INSTANTS, Prefix};
use lasso::{State, Value};
pub use trace::MOST_PLACES;

// What is known of a behaviour: a lasso of three values a place.
pub trait Source {
    ghost meaning: { Self → Meaning };

    // How many places there are, 0 to 768.
    fn places(&self) -> usize
        ensures value { result ≡ (meaning self.now).places }
        ensures kept { Kept (meaning self.now) };

    // How many states there are, 1 to 17.
    fn states(&self) -> usize
        ensures value { result ≡ (meaning self.now).states }
        ensures kept { Kept (meaning self.now) };

    // The state that follows the last one.
    fn loop_start(&self) -> State
        ensures value { result.0 ≡ (meaning self.now).start }
        ensures kept { Kept (meaning self.now) };

    // The value of a place in a state; open beyond the counts.
    fn value(&self, place: usize, state: State) -> Value
        ensures value { result ≡ (meaning self.now).value place state.0 }
        ensures kept { Kept (meaning self.now) };
}
