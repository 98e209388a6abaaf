ghost use Rattle.std.specs.Prelude.{◌≡◌, ℕ, ◌+◌, ◌-◌, ◌<◌, ◌≤◌, [], length, Decides, slice_index_or};
ghost use Rattle.lasso.specs.Lassos.{state_at, Repeats, Fewest};
ghost use Rattle.trace.specs.Tables.{most_places, most_states, holds, Alike, RoundSeen, NoLassoOf};

use super::table::Table;
use lasso::{Instant, Shape};

// A lasso of which it is not known yet whether fewer states would do.
#[derive(Drop)]
pub(crate) struct Lasso<'a> {
    pub(crate) shape: Shape,
    pub(crate) held: &'a Table,
    ghost few: { shape.states ≤ most_states },
}

// Loops, and not `all`: there each closure has to state what it needs and what it gives, in more lines than the loop.
impl<'a> Lasso<'a> {
    // The row of the state at an instant.
    fn row(&self, instant: Instant) -> &[bool]
        ensures value { result.now ≡ slice_index_or self.now.held.now (state_at self.now.shape.states self.now.shape.loop_start instant.0) [] }
        ensures wide { length result.now ≡ most_places }
    {
        &self.held[self.shape.fold(instant).0]
    }

    // Whether the same places are held at two instants of the endless path.
    #[tactic(auto, using(crate::proofs::Alike::rows_alike))]
    fn alike(&self, a: Instant, b: Instant) -> bool
        ensures { Decides result (Alike self.now.shape.states self.now.shape.loop_start self.now.held.now a.0 b.0) }
    {
        self.row(a) == self.row(b)
    }

    // Whether, for as many instants as there are states, what is held at an instant is held again `period` instants later.
    fn round_seen(&self, from: usize, period: usize) -> bool
        requires from { from < 8 }
        requires period { period ≤ 8 }
        ensures { Decides result (RoundSeen self.now.shape.states self.now.shape.loop_start self.now.held.now from period) }
    {
        for i in from..from + self.shape.states() {
            if !self.alike(Instant(i + period), Instant(i)) {
                return false;
            }
        }
        true
    }

    // Whether, from the instant `from` on for ever, what is held is held again `period` instants later.
    fn repeats(&self, from: usize, period: usize) -> bool
        requires from { from < 8 }
        requires period { period ≤ 8 }
        ensures { Decides result (Repeats self.now.shape.states self.now.shape.loop_start (holds self.now.held.now) from period) }
    {
        self.round_seen(from, period)
    }

    // Whether no lasso of `states` states has the same endless path.
    fn no_lasso_of(&self, states: usize) -> bool
        requires { states < 8 }
        ensures { Decides result (NoLassoOf states self.now.shape.states self.now.shape.loop_start self.now.held.now) }
    {
        for start in 0..states {
            if self.repeats(start, states - start) {
                return false;
            }
        }
        true
    }

    // Whether no lasso of fewer states has the same endless path, each number of states tried.
    fn none_shorter(&self) -> bool
        ensures { Decides result ((m : ℕ) → m < self.now.shape.states → NoLassoOf m self.now.shape.states self.now.shape.loop_start self.now.held.now) }
    {
        for states in 0..self.shape.states() {
            if !self.no_lasso_of(states) {
                return false;
            }
        }
        true
    }

    // Whether no lasso with fewer states has the same endless path.
    pub(crate) fn is_fewest(&self) -> bool
        ensures { Decides result (Fewest self.now.shape.states self.now.shape.loop_start (holds self.now.held.now)) }
    {
        self.none_shorter()
    }
}
