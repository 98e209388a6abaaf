ghost use Rattle.std.specs.Prelude.{◌≡◌};
ghost use Rattle.meaning.specs.Tuples.{tuples as tuples_of};
ghost use Rattle.meaning.specs.Tables.{table_at, highest as highest_of, within_value, all_value, some_of_value, tested_value, compared_value, quantified_value};
ghost use Rattle.tuples.specs.Tabled.{table_of};

use super::super::atoms::Atoms;
use super::Tuples;
use super::folds::{highest, lowest};
use lasso::Value;
use problem::{Comparison, Quantifier, Test};

impl Tuples {
    // Whether there is some tuple, or none.
    pub fn tested(&self, test: Test, atoms: Atoms) -> Value
        ensures { result ≡ tested_value test (tuples_of atoms.count self.now.arity) (table_of self.now) }
    {
        let count = atoms.tuples(self.arity);
        match test {
            Test::Some => greatest(self, count),
            Test::No => !greatest(self, count),
        }
    }

    // Whether each tuple is one of another set's, or the two have the same ones.
    pub fn compared(&self, comparison: Comparison, other: &Tuples, atoms: Atoms) -> Value
        ensures { result ≡ compared_value comparison (tuples_of atoms.count self.now.arity) (table_of self.now) (table_of other.now) }
    {
        let count = atoms.tuples(self.arity);
        match comparison {
            Comparison::In => within(self, other, count),
            Comparison::Equal => within(self, other, count).smaller(within(other, self, count)),
        }
    }
}

// Whether a formula holds for all atoms of a domain, or for some; of its values for each atom, those beyond the last are no.
pub fn quantified(quantifier: Quantifier, domain: &Tuples, bodies: &[Value], atoms: Atoms) -> Value
    ensures { result ≡ quantified_value quantifier atoms.count (table_of domain.now) (table_at bodies.now) }
{
    let count = atoms.count();
    match quantifier {
        Quantifier::All => all(domain, bodies, count),
        Quantifier::Some => some(domain, bodies, count),
    }
}

// The greatest value of the first tuples.
fn greatest(tuples: &Tuples, count: usize) -> Value
    ensures { result ≡ highest_of count (table_of tuples.now) }
{
    highest(count, |r| tuples.value(r))
}

// Whether each of the first tuples is one of another set's.
fn within(a: &Tuples, b: &Tuples, count: usize) -> Value
    ensures { result ≡ within_value count (table_of a.now) (table_of b.now) }
{
    lowest(count, |r| (!a.value(r)).greater(b.value(r)))
}

// Whether a formula holds for all atoms of a domain.
fn all(domain: &Tuples, bodies: &[Value], atoms: usize) -> Value
    ensures { result ≡ all_value atoms (table_of domain.now) (table_at bodies.now) }
{
    lowest(
        atoms,
        |atom| (!domain.value(atom)).greater(body(bodies, atom)),
    )
}

// Whether it holds for some.
fn some(domain: &Tuples, bodies: &[Value], atoms: usize) -> Value
    ensures { result ≡ some_of_value atoms (table_of domain.now) (table_at bodies.now) }
{
    highest(atoms, |atom| domain.value(atom).smaller(body(bodies, atom)))
}

// What a formula is for an atom; no beyond the last.
fn body(bodies: &[Value], atom: usize) -> Value
    ensures { result ≡ table_at bodies.now atom }
{
    bodies.get(atom).copied().unwrap_or(Value::No)
}
