ghost use Rattle.std.specs.Prelude.{◌≡◌, ◌+◌, ◌-◌, ◌*◌, ◌<◌, ◌≤◌, cond, nat_lt, MatchOption, IsSome};
ghost use Rattle.meaning.specs.Laws.{OneRoundIsTooFew, Rounds};
ghost use Rattle.meaning.specs.RowLaws.{FormulasStand, RowsRight, window};

use super::{MOST_INSTANTS, Window};
use lasso::{Instant, Shape};

impl Window {
    // The window of a lasso that formulas need whose past is `past` deep; none where it has more than 85 instants.
    pub fn of(shape: Shape, past: usize) -> Option<Window>
        ensures value { MatchOption result (85 < window shape.states shape.loop_start past) (λ w. (w.instants ≡ window shape.states shape.loop_start past) × (w.period ≡ shape.states - shape.loop_start)) }
        ensures fits { shape.states ≤ 17 → past ≤ 4 → IsSome result }
        ensures again { Rounds }
        ensures late { OneRoundIsTooFew }
        ensures parts { RowsRight }
        ensures enough { FormulasStand }
    {
        if shape.states() > MOST_INSTANTS || past >= MOST_INSTANTS {
            return None;
        }
        let start = shape.loop_start().0;
        Window::over(start, shape.states() - start, past + 1)
    }

    // The window of `rounds` rounds after the loop start; none where it has more than 85 instants.
    fn over(start: usize, period: usize, rounds: usize) -> Option<Window>
        requires some { 0 < period }
        requires short { start + period ≤ 85 }
        requires again { 0 < rounds }
        requires few { rounds ≤ 85 }
        ensures { MatchOption result (85 < start + rounds * period) (λ w. (w.instants ≡ start + rounds * period) × (w.period ≡ period)) }
    {
        let instants = start + rounds * period;
        if instants > MOST_INSTANTS {
            return None;
        }
        Some(Window { instants, period })
    }

    // How many instants it has.
    pub fn instants(self) -> usize
        ensures value { result ≡ self.instants }
        ensures few { result ≤ 85 }
    {
        self.instants
    }

    // How many instants later all comes again.
    pub fn period(self) -> usize
        ensures value { result ≡ self.period }
        ensures some { 0 < result }
        ensures inside { result ≤ self.instants }
    {
        self.period
    }

    // The instant after one of the window; the last is followed by the one a period before the end.
    pub(crate) fn after(self, instant: Instant) -> Instant
        requires { instant.0 < self.instants }
        ensures { result.0 ≡ cond (nat_lt (instant.0 + 1) self.instants) (instant.0 + 1) (self.instants - self.period) }
    {
        let next = instant.0 + 1;
        if next < self.instants {
            Instant(next)
        } else {
            Instant(self.instants - self.period)
        }
    }
}
