ghost use Rattle.std.specs.Prelude.{◌≡◌, ◌+◌, slice_index_or};
ghost use Rattle.lasso.specs.declared.value.Value.TheVariants.{Open};
ghost use Rattle.relations.specs.Relations.{arity_number};
ghost use Rattle.problem.specs.Sorts.{constant_arity};
ghost use Rattle.meaning.specs.Tables.{constant_table, variable_table};
ghost use Rattle.tuples.specs.Tabled.{Tabled};

use super::super::atoms::Atoms;
use super::Tuples;
use lasso::Value;
use problem::Constant;
use relations::Arity;

impl Tuples {
    // All atoms, no atom, or each atom beside itself.
    pub fn constant(constant: Constant, atoms: Atoms) -> Tuples
        ensures { Tabled atoms.count (constant_arity constant) (constant_table atoms.count constant) result }
    {
        Tuples::tabled(
            constant.arity(),
            atoms,
            |r| constant_value(constant, atoms, r),
        )
    }

    // A variable that is bound to an atom.
    pub fn variable(atom: usize, atoms: Atoms) -> Tuples
        ensures { Tabled atoms.count 1 (variable_table atom) result }
    {
        Tuples::tabled(1, atoms, |r| variable_value(atom, r))
    }

    // A relation whose places in a row begin at one; open beyond the row's end.
    pub fn relation(row: &[Value], first_place: usize, arity: Arity, atoms: Atoms) -> Tuples
        ensures { Tabled atoms.count (arity_number arity) (λ r. slice_index_or row.now (first_place + r) Open) result }
    {
        Tuples::tabled(arity.number(), atoms, |r| place_value(row, first_place, r))
    }
}

// The value of a tuple of a constant.
fn constant_value(constant: Constant, atoms: Atoms, tuple: usize) -> Value
    ensures { result ≡ constant_table atoms.count constant tuple }
{
    match constant {
        Constant::Univ => Value::Yes,
        Constant::None => Value::No,
        Constant::Iden => Value::from(tuple / atoms.count() == tuple % atoms.count()),
    }
}

// The value of a tuple of a variable that is bound to an atom.
fn variable_value(atom: usize, tuple: usize) -> Value
    ensures { result ≡ variable_table atom tuple }
{
    Value::from(tuple == atom)
}

// The value so many places after one; open beyond the row's end.
fn place_value(row: &[Value], first_place: usize, tuple: usize) -> Value
    ensures { result ≡ slice_index_or row.now (first_place + tuple) Open }
{
    let place = first_place.saturating_add(tuple);
    row.get(place).copied().unwrap_or(Value::Open)
}
