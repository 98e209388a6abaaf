ghost use Rattle.std.specs.Prelude.{◌≡◌, ◌<◌, ◌≤◌, length, IfSome, IfOk};
ghost use Rattle.names.specs.Names.{spelling};
ghost use Rattle.relations.specs.Declarations.{atoms_of};
ghost use Rattle.tokens.specs.Cursors.{cursor};
ghost use Rattle.tokens.specs.Outcomes.{told};
ghost use Rattle.declaring.specs.Sets.{listed, atom_named, atom_number, second_number, numbered, tuple as tuple_of, tuples as tuples_of, tuple_set, set_told, most_text};
ghost use Rattle.declaring.specs.Readers.{SameLoans};

use super::reader::Lent;
use super::tuples::Tuples;
use faults::Fault;
use names::lookup;
use relations::{Arity, Declarations};
use tokens::{Mark, PlacedName};

// The most bytes of a text, so more than it has tuples.
pub const MOST_TEXT: usize = 8192;

impl Lent<'_, '_> {
    // Reads a set of tuples.
    pub(super) fn set(&mut self, arity: Arity) -> Result<Tuples, Fault>
        ensures value { set_told result (cursor self.new.tokens.now) ≡ tuple_set (atoms_of self.old.declared.now) arity (cursor self.old.tokens.now) }
        ensures kept { self.new.declared.now ≡ self.old.declared.now }
        ensures same { SameLoans self.old self.new }
    {
        self.tokens.expect(Mark::OpenBrace)?;
        let mut tuples = Tuples::new();
        self.tuples(arity, &mut tuples)?;
        self.tokens.expect(Mark::CloseBrace)?;
        Ok(tuples)
    }

    // Reads the tuples of a set.
    // No plainer as one loop with the atoms, for the reason at `more_atoms`.
    #[tactic(auto, using(crate::proofs::Turns::tuples_none, crate::proofs::Turns::tuples_end, crate::proofs::Turns::tuples_more, crate::proofs::Turns::tuples_fail))]
    fn tuples(&mut self, arity: Arity, tuples: &mut Tuples) -> Result<(), Fault>
        ensures value { told result (cursor self.new.tokens.now) (listed tuples.new) ≡ tuples_of most_text (atoms_of self.old.declared.now) arity (cursor self.old.tokens.now) (listed tuples.old) }
        ensures kept { self.new.declared.now ≡ self.old.declared.now }
        ensures same { SameLoans self.old self.new }
    {
        'tuples: for _turn in 0..MOST_TEXT {
            if !self.tokens.is(Mark::OpenParen) {
                break;
            }
            self.tuple(arity, tuples)?;
        }
        Ok(())
    }

    // Reads one tuple.
    fn tuple(&mut self, arity: Arity, tuples: &mut Tuples) -> Result<(), Fault>
        ensures value { told result (cursor self.new.tokens.now) (listed tuples.new) ≡ tuple_of (atoms_of self.old.declared.now) arity (cursor self.old.tokens.now) (listed tuples.old) }
        ensures kept { self.new.declared.now ≡ self.old.declared.now }
        ensures same { SameLoans self.old self.new }
    {
        let place = self.tokens.expect(Mark::OpenParen)?;
        let first = self.number()?;
        let second = self.second_number()?;
        self.tokens.expect(Mark::CloseParen)?;
        let tuple = number(arity, self.declared.atom_count(), first, second).ok_or(
            Fault::ArityMismatch { place },
        )?;
        tuples.note(tuple, place);
        Ok(())
    }

    // Reads the name of an atom: its number.
    fn number(&mut self) -> Result<usize, Fault>
        ensures value { told result (cursor self.new.tokens.now) tt ≡ atom_number (atoms_of self.old.declared.now) (cursor self.old.tokens.now) }
        ensures small { IfOk result (λ i. i < 8) }
        ensures kept { self.new.declared.now ≡ self.old.declared.now }
        ensures same { SameLoans self.old self.new }
    {
        let placed = self.tokens.take_name()?;
        atom_named(self.declared, placed)
    }

    // Reads a second atom, if there is one.
    fn second_number(&mut self) -> Result<Option<usize>, Fault>
        ensures value { told result (cursor self.new.tokens.now) tt ≡ second_number (atoms_of self.old.declared.now) (cursor self.old.tokens.now) }
        ensures small { IfOk result (λ o. IfSome o (λ i. i < 8)) }
        ensures kept { self.new.declared.now ≡ self.old.declared.now }
        ensures same { SameLoans self.old self.new }
    {
        if self.tokens.name().is_none() {
            return Ok(None);
        }
        Ok(Some(self.number()?))
    }
}

// The number of the atom with a name.
#[tactic(auto, unfolding(crate::specs::Sets::atom_named))]
fn atom_named(declared: &Declarations, placed: PlacedName) -> Result<usize, Fault>
    ensures value { result ≡ atom_named (spelling placed.name) (atoms_of declared.now) placed.place }
    ensures small { IfOk result (λ i. i < 8) }
{
    let PlacedName { name, place } = placed;
    lookup(declared.atoms(), name.as_bytes()).ok_or(Fault::NameUnknown { place })
}

// The number of a tuple, if its length fits the arity.
fn number(arity: Arity, atoms: usize, first: usize, second: Option<usize>) -> Option<usize>
    requires atoms { atoms ≤ 8 }
    requires first { first < 8 }
    requires second { IfSome second (λ i. i < 8) }
    ensures { result ≡ numbered arity atoms first second }
{
    match (arity, second) {
        (Arity::One, None) => Some(first),
        (Arity::Two, Some(second)) => Some(first * atoms + second),
        _ => None,
    }
}
