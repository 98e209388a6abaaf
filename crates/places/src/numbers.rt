ghost use Rattle.std.specs.Prelude.{◌≡◌, ◌+◌, ◌<◌, ◌≤◌, length, Some, MatchOption, slice_index};
ghost use Rattle.problem.specs.Problems.{relations_in, sizes_in};
ghost use Rattle.places.specs.Places.{before, place_count, place_of, place_of_tuple};

use problem::Problem;

// A tuple of a relation, by their numbers.
#[derive(Clone, Copy)]
pub struct Tuple {
    pub relation: usize,
    pub tuple: usize,
}

// How many places there are, at most 768.
pub fn places(problem: &Problem) -> usize
    ensures value { result ≡ place_count (sizes_in problem.now) }
    ensures few { result ≤ 768 }
{
    count(problem)
}

// The first place of a relation: how many places the relations before it have.
pub fn first_place(problem: &Problem, relation: usize) -> usize
    ensures { result ≡ before (sizes_in problem.now) relation }
{
    if relation < problem.relations().len() {
        return places_before(problem, relation);
    }
    places(problem)
}

// The place of a tuple of a relation; none where there is no such tuple.
pub fn place_of(problem: &Problem, at: Tuple) -> Option<usize>
    ensures { result ≡ place_of_tuple (sizes_in problem.now) at }
{
    if at.tuple < problem.size(at.relation) {
        return Some(numbered(problem, at));
    }
    None
}

// The tuple at a place; none from the place count on.
pub fn at_place(problem: &Problem, place: usize) -> Option<Tuple>
    ensures found { MatchOption result (place_count (sizes_in problem.now) ≤ place) (λ t. place_of_tuple (sizes_in problem.now) t ≡ Some place) }
    ensures exact { (t : Tuple) → place_of_tuple (sizes_in problem.now) t ≡ Some place → result ≡ Some t }
{
    sought(problem, place)
}

// How many places the relations before an index have.
fn places_before(problem: &Problem, relation: usize) -> usize
    requires { relation ≤ length (relations_in problem.now) }
    ensures value { result ≡ before (sizes_in problem.now) relation }
    ensures few { result ≤ 768 }
{
    (0..relation).map(|i| problem.size(i)).sum()
}

// The places of all relations.
fn count(problem: &Problem) -> usize
    ensures value { result ≡ place_count (sizes_in problem.now) }
    ensures few { result ≤ 768 }
{
    places_before(problem, problem.relations().len())
}

// The place of a tuple that there is.
fn numbered(problem: &Problem, at: Tuple) -> usize
    requires there { at.tuple < slice_index (sizes_in problem.now) at.relation }
    requires few { at.tuple < 64 }
    ensures { result ≡ before (sizes_in problem.now) at.relation + at.tuple }
{
    places_before(problem, at.relation) + at.tuple
}

// Goes through the relations to the one that has the place.
fn seek(problem: &Problem, place: usize) -> Option<Tuple>
    ensures { MatchOption result (place_count (sizes_in problem.now) ≤ place) (λ t. place_of_tuple (sizes_in problem.now) t ≡ Some place) }
{
    let mut left = place;
    'seek: for relation in 0..problem.relations().len() {
        let size = problem.size(relation);
        if left < size {
            return Some(Tuple {
                relation,
                tuple: left,
            });
        }
        left -= size;
    }
    None
}

// No two tuples have the same place.
fn sought(problem: &Problem, place: usize) -> Option<Tuple>
    ensures found { MatchOption result (place_count (sizes_in problem.now) ≤ place) (λ t. place_of_tuple (sizes_in problem.now) t ≡ Some place) }
    ensures exact { (t : Tuple) → place_of_tuple (sizes_in problem.now) t ≡ Some place → result ≡ Some t }
{
    seek(problem, place)
}
