ghost use Rattle.std.specs.Prelude.{◌≡◌, ◌<◌, ◌≤◌, MatchOption};
ghost use Rattle.lasso.specs.Lassos.{state_at, after_rounds, Endless};

use super::super::time::{Instant, State};
use super::Shape;

impl Shape {
    // One state, which follows itself.
    pub fn one_state() -> Shape
        ensures states { result.states ≡ 1 }
        ensures loop_start { result.loop_start ≡ 0 }
    {
        Shape {
            states: 1,
            loop_start: 0,
        }
    }

    // The lasso of `states` states that goes back to `loop_start`; none where that is no state of it.
    pub fn new(states: usize, loop_start: State) -> Option<Shape>
        ensures { MatchOption result (states ≤ loop_start.0) (λ s. (s.states ≡ states) × (s.loop_start ≡ loop_start.0)) }
    {
        if loop_start.0 >= states {
            return None;
        }
        Some(Shape {
            states,
            loop_start: loop_start.0,
        })
    }

    // How many states the lasso has.
    pub fn states(self) -> usize
        ensures value { result ≡ self.states }
        ensures some { 0 < result }
    {
        self.states
    }

    // The state that follows the last one.
    pub fn loop_start(self) -> State
        ensures value { result.0 ≡ self.loop_start }
        ensures below { result.0 < self.states }
    {
        State(self.loop_start)
    }

    // The state of the lasso at an instant: the one crossing from instants to states.
    pub fn fold(self, instant: Instant) -> State
        ensures value { result.0 ≡ state_at self.states self.loop_start instant.0 }
        ensures inside { result.0 < self.states }
        ensures endless { Endless self.states self.loop_start }
    {
        State(self.state_at(instant.0))
    }

    // The law of folding, over endless time.
    #[tactic(auto, using(crate::proofs::Folds::rounds_state_at, crate::proofs::Folds::state_at_below, crate::proofs::Folds::endless))]
    fn state_at(self, i: usize) -> usize
        ensures value { result ≡ state_at self.states self.loop_start i }
        ensures inside { result < self.states }
        ensures endless { Endless self.states self.loop_start }
    {
        self.after_rounds(i)
    }

    // What is left of an instant once all whole rounds of the loop are taken off.
    fn after_rounds(self, i: usize) -> usize
        ensures { result ≡ after_rounds self.states self.loop_start i }
    {
        let (states, start) = (self.states, self.loop_start);
        if i < states {
            return i;
        }
        start + (i - start) % (states - start)
    }
}
