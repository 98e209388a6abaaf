ghost use Rattle.std.specs.Prelude.{◌≡◌, ◌*◌, ◌<◌, ◌≤◌, ◌⊎◌, MatchOption};
ghost use Rattle.meaning.specs.Tuples.{tuples as tuples_of};

use super::{Atoms, MOST_ATOMS};

impl Atoms {
    // So many atoms; none where there is no atom, or more than eight.
    pub fn new(count: usize) -> Option<Atoms>
        ensures { MatchOption result ((count ≡ 0) ⊎ (8 < count)) (λ a. a.count ≡ count) }
    {
        match count {
            1..=MOST_ATOMS => Some(Atoms { count }),
            _ => None,
        }
    }

    // How many atoms there are, 1 to 8.
    pub fn count(self) -> usize
        ensures value { result ≡ self.count }
        ensures some { 1 ≤ result }
        ensures few { result ≤ 8 }
    {
        self.count
    }

    // How many tuples of so many atoms there are; from four atoms on, 0.
    pub fn tuples(self, arity: usize) -> usize
        ensures value { arity ≤ 3 → result ≡ tuples_of self.count arity }
        ensures some { arity ≤ 3 → 1 ≤ result }
        ensures beyond { 3 < arity → result ≡ 0 }
        ensures few { result ≤ 512 }
        ensures few_pairs { arity ≤ 2 → result ≤ 64 }
    {
        match arity {
            0 => 1,
            1 => self.times(1),
            2 => self.times(self.times(1)),
            3 => self.times(self.times(self.times(1))),
            _ => 0,
        }
    }

    // How many tuples of one more atom there are.
    fn times(self, tuples: usize) -> usize
        requires some { 1 ≤ tuples }
        requires few { tuples ≤ 64 }
        ensures value { result ≡ self.count * tuples }
        ensures some { 1 ≤ result }
        ensures few { result ≤ 8 * tuples }
    {
        self.count * tuples
    }
}
