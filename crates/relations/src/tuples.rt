ghost use Rattle.std.specs.Prelude.{◌≡◌, true, false, length, replicate, slice_index_or, slice_set};

// The most tuples of a relation: pairs of eight atoms.
pub const MOST_TUPLES: usize = 64;

// A set of tuples, by their numbers. An array and no `Vec`: a tuple is noted without asking for memory.
#[derive(Clone, Copy)]
pub struct TupleSet {
    held: [bool; 64],
    ghost whole: { length held ≡ 64 },
}

impl TupleSet {
    // The set of no tuple.
    pub fn empty() -> TupleSet
        ensures { result.held ≡ replicate 64 false }
    {
        TupleSet { held: [false; 64] }
    }

    // Whether a tuple is in the set; from 64 on none is.
    pub fn contains(&self, tuple: usize) -> bool
        ensures { result ≡ slice_index_or self.now.held tuple false }
    {
        self.held.get(tuple).copied().unwrap_or(false)
    }

    // Puts a tuple in; from 64 on nothing alters.
    pub fn insert(&mut self, tuple: usize)
        ensures { self.new.held ≡ slice_set self.old.held tuple true }
    {
        hold(&mut self.held, tuple);
    }
}

// Puts a true at a place; beyond the end nothing alters.
fn hold(held: &mut [bool], at: usize)
    ensures { held.new ≡ slice_set held.old at true }
{
    // `get_mut` of a slice says nothing of what the slice ends as, so its length is asked.
    if at < held.len() {
        held[at] = true;
    }
}
