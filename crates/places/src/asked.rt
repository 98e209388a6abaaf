ghost use Rattle.std.specs.Prelude.{◌≡◌, ◌≤◌, map, MatchOption, slice_index_or};
ghost use Rattle.lasso.specs.declared.value.Value.TheVariants.{No};
ghost use Rattle.relations.specs.Relations.{declared_of};
ghost use Rattle.problem.specs.Problems.{sizes_in};
ghost use Rattle.places.specs.Places.{place_count};
ghost use Rattle.places.specs.Asked.{fixed, relation_at, FixedAt, BoundAt};

use super::numbers::{Tuple, at_place};
use lasso::Value;
use problem::Problem;
use relations::{Mutability, Relation};

// Whether the relation of a place is fixed; none from the place count on.
pub fn is_fixed(problem: &Problem, place: usize) -> Option<bool>
    ensures { MatchOption result (place_count (sizes_in problem.now) ≤ place) (λ b. FixedAt problem.now place b) }
{
    let at = at_place(problem, place)?;
    Some(fixed_at(problem.relations(), at.relation))
}

// Whether the tuple at a place is always in, free (open), or never in; none from the place count on.
pub fn bounds(problem: &Problem, place: usize) -> Option<Value>
    ensures { MatchOption result (place_count (sizes_in problem.now) ≤ place) (λ v. BoundAt problem.now place v) }
{
    let at = at_place(problem, place)?;
    Some(bound_at(problem.relations(), at))
}

// Whether a relation is fixed, by its number; beyond the last one nothing alters.
fn fixed_at(relations: &[Relation], at: usize) -> bool
    ensures { result ≡ fixed (relation_at (map declared_of relations.now) at).mutability }
{
    relations
        .get(at)
        .is_none_or(|relation| relation.mutability() == Mutability::Fixed)
}

// What the bounds say of a tuple; beyond the last relation none is in.
fn bound_at(relations: &[Relation], at: Tuple) -> Value
    ensures { result ≡ slice_index_or (relation_at (map declared_of relations.now) at.relation).bounds at.tuple No }
{
    relations
        .get(at.relation)
        .map_or(Value::No, |relation| relation.bound(at.tuple))
}
