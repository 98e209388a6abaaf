ghost use Rattle.std.specs.Prelude.{◌≡◌, ◌≢◌, ◌<◌, ◌≤◌};
ghost use Rattle.lasso.specs.declared.value.Value.TheVariants.{No};
ghost use Rattle.meaning.specs.Tables.{transpose_table, round_table, chains_below, turned_table};
ghost use Rattle.meaning.specs.Laws.{ClosureAtAtoms, TransposeAtAtoms};
ghost use Rattle.tuples.specs.Tabled.{table_of, Tabled};

use super::super::atoms::{Atoms, MOST_ATOMS};
use super::Tuples;
use lasso::Value;
use problem::{Constant, Turn};

impl Tuples {
    // Pairs turned round, or chained; no tuple where these are no pairs.
    pub fn turned(&self, turn: Turn, atoms: Atoms) -> Tuples
        ensures pairs { self.now.arity ≡ 2 → Tabled atoms.count 2 (turned_table turn atoms.count (table_of self.now)) result }
        ensures others { self.now.arity ≢ 2 → Tabled atoms.count 1 (λ r. No) result }
        ensures transpose { TransposeAtAtoms }
        ensures closure { ClosureAtAtoms }
    {
        if self.arity != 2 {
            return Tuples::constant(Constant::None, atoms);
        }
        self.turned_pairs(turn, atoms)
    }

    // Pairs turned round, or chained.
    fn turned_pairs(&self, turn: Turn, atoms: Atoms) -> Tuples
        requires { self.now.arity ≡ 2 }
        ensures { Tabled atoms.count 2 (turned_table turn atoms.count (table_of self.now)) result }
    {
        match turn {
            Turn::Transpose => self.transposed(atoms),
            Turn::Closure => self.chained_below(atoms.count(), atoms),
        }
    }

    // Pairs turned round.
    fn transposed(&self, atoms: Atoms) -> Tuples
        ensures { Tabled atoms.count 2 (transpose_table atoms.count (table_of self.now)) result }
    {
        Tuples::tabled(2, atoms, |r| self.transposed_value(atoms, r))
    }

    // The value of a pair turned round.
    fn transposed_value(&self, atoms: Atoms, pair: usize) -> Value
        requires { pair < 64 }
        ensures { result ≡ transpose_table atoms.count (table_of self.now) pair }
    {
        let count = atoms.count();
        self.values[pair % count * count + pair / count]
    }

    // Chains of pairs that go through the first atoms: each round lets them go through one more.
    fn chained_below(&self, rounds: usize, atoms: Atoms) -> Tuples
        requires pairs { self.now.arity ≡ 2 }
        requires inside { rounds ≤ atoms.count }
        ensures { Tabled atoms.count 2 (chains_below atoms.count rounds (table_of self.now)) result }
    {
        (0..rounds).fold(*self, |chains, middle| chains.round(middle, atoms))
    }

    // Pairs, or two pairs that meet at an atom.
    fn round(&self, middle: usize, atoms: Atoms) -> Tuples
        ensures { middle < atoms.count → Tabled atoms.count 2 (round_table atoms.count middle (table_of self.now)) result }
    {
        // The closure of a `fold` may be asked for any number; one that is no atom's would overflow.
        let middle = middle.min(MOST_ATOMS);
        Tuples::tabled(2, atoms, |r| self.round_value(middle, atoms, r))
    }

    // The value of a pair, or of two that meet at an atom.
    fn round_value(&self, middle: usize, atoms: Atoms, pair: usize) -> Value
        requires middle { middle ≤ 8 }
        requires pair { pair < 64 }
        ensures { result ≡ round_table atoms.count middle (table_of self.now) pair }
    {
        let count = atoms.count();
        let left = self.values[pair / count * count + middle];
        let right = self.values[middle * count + pair % count];
        self.values[pair].greater(left.smaller(right))
    }
}
