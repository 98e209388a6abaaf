ghost use Rattle.std.specs.Prelude.{◌≡◌, false, min, slice_index_or, filter_map};
ghost use Rattle.std.specs.List.{reduce, enumerate_from};
ghost use Rattle.declaring.specs.Sets.{listed, nothing, noted, outside_at, outside as outside_of};

use super::Tuples;
use relations::{MOST_TUPLES, TupleSet};

impl Tuples {
    // No tuple.
    #[tactic(auto, unfolding(crate::specs::Sets::listed, crate::specs::Sets::nothing))]
    pub fn new() -> Tuples
        ensures { listed result ≡ nothing }
    {
        Tuples {
            set: TupleSet::empty(),
            places: [0; 64],
        }
    }

    // Notes a tuple that stands at a place; a repeated one counts once.
    #[tactic(auto, unfolding(crate::specs::Sets::listed, crate::specs::Sets::noted))]
    pub fn note(&mut self, tuple: usize, place: usize)
        ensures { listed self.new ≡ noted tuple place (listed self.old) }
    {
        if tuple >= MOST_TUPLES || self.set.contains(tuple) {
            return;
        }
        self.set.insert(tuple);
        self.places[tuple] = place;
    }

    // The set without the places.
    #[tactic(auto, unfolding(crate::specs::Sets::listed))]
    pub fn set(&self) -> &TupleSet
        ensures { result.now.held ≡ (listed self.now).held }
    {
        &self.set
    }

    // The place of the first tuple that is not in the other set.
    pub fn outside(&self, other: &TupleSet) -> Option<usize>
        ensures { result ≡ outside_of (listed self.now) other.now.held }
    {
        self.first_stray(other)
    }

    // The smallest of the places of the tuples that are not in the other set.
    fn first_stray(&self, other: &TupleSet) -> Option<usize>
        ensures { result ≡ reduce min (filter_map (λ p. outside_at (slice_index_or self.now.set.held p.0 false) p.1 (slice_index_or other.now.held p.0 false)) (enumerate_from 0 self.now.places)) }
    {
        self.places
            .iter()
            .enumerate()
            .filter_map(|(tuple, place)| {
                (self.set.contains(tuple) && !other.contains(tuple)).then_some(*place)
            })
            .min()
    }
}
