ghost use Rattle.std.specs.Prelude.{◌≡◌, ℕ, ◌+◌, ◌*◌, ◌/◌, ◌%◌, ◌<◌, ◌≤◌, ◌⊎◌, MatchOption, slice_index, slice_set};
ghost use Rattle.lasso.specs.declared.value.Value.TheVariants.{No};
ghost use Rattle.meaning.specs.Tables.{table_at};
ghost use Rattle.tuples.specs.Tabled.{table_of, Tabled};
ghost use Rattle.tuples.specs.Packing.{number_of, four_of, value_in, packed_table};

use super::atoms::Atoms;
use super::tuples::Tuples;
use lasso::Value;
use std::array;

// The values of the first 4 × N tuples of a set, two bits each and four to a byte. A packed number where values of an enum would say
// more: the evaluator keeps many sets and has no heap, so they must take little of the stack.
#[derive(Clone, Copy)]
pub struct Packed<const N: usize> {
    fours: [u8; N],
}

impl<const N: usize> Packed<N> {
    // No tuple.
    #[tactic(auto, unfolding(crate::specs::Packing::packed_table))]
    pub fn none() -> Packed<N>
        ensures { (r : ℕ) → packed_table result r ≡ No }
    {
        Packed { fours: [0; N] }
    }

    // The first tuples of a set.
    #[tactic(auto, using(crate::proofs::Packs::read_at))]
    pub fn of(tuples: &Tuples) -> Packed<N>
        ensures { (r : ℕ) → r < 4 * N → packed_table result r ≡ table_of tuples.now r }
    {
        Packed {
            fours: fours(tuples),
        }
    }

    // The tuples of an arity, those beyond the first left out; none of an arity that no set has.
    pub fn tuples(&self, arity: usize, atoms: Atoms) -> Option<Tuples>
        ensures { MatchOption result ((arity ≡ 0) ⊎ (3 < arity)) (λ t. Tabled atoms.count arity (packed_table self.now) t) }
    {
        match arity {
            1..=3 => Some(self.set(arity, atoms)),
            _ => None,
        }
    }

    // The same of an arity that a set has.
    fn set(&self, arity: usize, atoms: Atoms) -> Tuples
        requires some { 1 ≤ arity }
        requires few { arity ≤ 3 }
        ensures { Tabled atoms.count arity (packed_table self.now) result }
    {
        Tuples::of_values(arity, self.values())
    }

    // The values of all tuples, no beyond the first ones. Four at a time: one at a time, each by its number, is slower.
    fn values(&self) -> [Value; 512]
        ensures { (r : ℕ) → r < 512 → table_at result r ≡ packed_table self.now r }
    {
        let mut values = [Value::No; 512];
        'fours: for byte in 0..N.min(128) {
            write_four(&mut values, byte, self.four_at(byte));
        }
        values
    }

    // The byte of four values.
    fn four_at(&self, byte: usize) -> u8
        requires { byte < N }
        ensures { result ≡ slice_index self.now.fours byte }
    {
        self.fours[byte]
    }
}

// Writes the four values of a byte.
fn write_four(values: &mut [Value; 512], byte: usize, four: u8)
    requires { byte < 128 }
    ensures { values.new ≡ slice_set (slice_set (slice_set (slice_set values.old (4 * byte) (value_in four 0)) (4 * byte + 1) (value_in four 1)) (4 * byte + 2) (value_in four 2)) (4 * byte + 3) (value_in four 3) }
{
    values[4 * byte] = value_in(four, 0);
    values[4 * byte + 1] = value_in(four, 1);
    values[4 * byte + 2] = value_in(four, 2);
    values[4 * byte + 3] = value_in(four, 3);
}

// The values of the first tuples of a set, four to a byte.
fn fours<const N: usize>(tuples: &Tuples) -> [u8; N]
    ensures { (byte : ℕ) → byte < N → slice_index result byte ≡ four_of (table_of tuples.now) byte }
{
    array::from_fn(|byte| four(tuples, byte))
}

// The values of four tuples of a set, as a byte.
fn four(tuples: &Tuples, byte: usize) -> u8
    ensures { result ≡ four_of (table_of tuples.now) byte }
{
    number(tuples, byte, 0)
        + 4 * number(tuples, byte, 1)
        + 16 * number(tuples, byte, 2)
        + 64 * number(tuples, byte, 3)
}

// The value of one of four tuples, as a number of two bits.
fn number(tuples: &Tuples, byte: usize, place: usize) -> u8
    ensures value { result ≡ number_of (table_of tuples.now (byte * 4 + place)) }
    ensures few { result ≤ 2 }
{
    tuples.value_of_two(byte, 4, place) as u8
}

// One of the four values of a byte.
fn value_in(four: u8, place: usize) -> Value
    requires { place < 4 }
    ensures { result ≡ value_in four place }
{
    match (four >> (2 * place)) % 4 {
        0 => Value::No,
        1 => Value::Open,
        _ => Value::Yes,
    }
}
