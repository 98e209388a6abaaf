ghost use Rattle.std.specs.Prelude.{◌≡◌, ◌*◌, ◌<◌, ◌≤◌, map, length, MatchOption, slice_index};
ghost use Rattle.relations.specs.Free.{size_of};
ghost use Rattle.relations.specs.Relations.{declared_of};
ghost use Rattle.problem.specs.Problems.{atoms_in, relations_in, sizes_in};
ghost use Rattle.places.specs.Asked.{relation_at};
ghost use Rattle.places.specs.Members.{AtomsAre, Pair};

use super::numbers::Tuple;
use problem::Problem;
use relations::{Arity, Relation};

// The atoms of a tuple, by their numbers.
#[derive(Clone, Copy)]
pub enum Members {
    One(usize),
    Two(usize, usize),
}

// The atoms of a tuple of a relation; none where there is no such tuple.
pub fn atoms_of(problem: &Problem, tuple: Tuple) -> Option<Members>
    ensures { MatchOption result (slice_index (sizes_in problem.now) tuple.relation ≤ tuple.tuple) (λ m. AtomsAre (length (atoms_in problem.now)) (relation_at (relations_in problem.now) tuple.relation).arity tuple.tuple m) }
{
    if tuple.tuple < problem.size(tuple.relation) {
        return Some(split(problem, tuple));
    }
    None
}

// The atoms of a tuple that there is.
fn split(problem: &Problem, at: Tuple) -> Members
    requires { at.tuple < slice_index (sizes_in problem.now) at.relation }
    ensures { AtomsAre (length (atoms_in problem.now)) (relation_at (relations_in problem.now) at.relation).arity at.tuple result }
{
    divided(
        arity_at(problem.relations(), at.relation),
        problem.atoms().len(),
        at.tuple,
    )
}

fn arity_at(relations: &[Relation], at: usize) -> Arity
    ensures { result ≡ (relation_at (map declared_of relations.now) at).arity }
{
    relations
        .get(at)
        .map_or(Arity::One, |relation| relation.arity())
}

// The atoms that a number stands for, of so many.
fn divided(arity: Arity, atoms: usize, number: usize) -> Members
    requires some { 1 ≤ atoms }
    requires there { number < size_of atoms arity }
    ensures { AtomsAre atoms arity number result }
{
    match arity {
        Arity::One => Members::One(number),
        Arity::Two => {
            let (a, b) = pair(atoms, number);
            Members::Two(a, b)
        }
    }
}

// The two atoms that a number stands for, of so many.
fn pair(atoms: usize, number: usize) -> (usize, usize)
    requires some { 1 ≤ atoms }
    requires there { number < atoms * atoms }
    ensures { Pair atoms number result.0 result.1 }
{
    (number / atoms, number % atoms)
}
