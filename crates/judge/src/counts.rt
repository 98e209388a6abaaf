ghost use Rattle.std.specs.Prelude.{◌≡◌, ◌≤◌};
ghost use Rattle.lasso.specs.declared.value.Value.TheVariants.{Yes};
ghost use Rattle.relations.specs.Relations.{declared_of, number_of};

use lasso::Value;
use relations::Relation;

// How many of a relation's first tuples are always in.
pub(crate) fn certain(relation: &Relation, size: usize) -> usize
    ensures value { result ≡ number_of Yes size (declared_of relation.now).bounds }
    ensures few { result ≤ size }
{
    relation.count(Value::Yes, size)
}
