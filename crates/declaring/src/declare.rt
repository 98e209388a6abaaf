ghost use Rattle.std.specs.Prelude.{◌≡◌, ◌<◌, length};
ghost use Rattle.names.specs.Names.{spelling};
ghost use Rattle.relations.specs.Declarations.{relations_of as relations_in};
ghost use Rattle.tokens.specs.Cursors.{cursor, head};
ghost use Rattle.tokens.specs.Outcomes.{told};
ghost use Rattle.declaring.specs.Sets.{most_text};
ghost use Rattle.declaring.specs.Known.{known, framed_told};
ghost use Rattle.declaring.specs.Declaring.{atom, further_atoms, atoms, mutability_of, arity as arity_of, bounds, relation as relation_of, relations as relations_of, declarations, horizon};
ghost use Rattle.declaring.specs.Readers.{answer, from, lent_answer, lent_from, SameLoans};

use super::known::{arity_given, declare_atom, declare_relation, nameable, with_horizon};
use super::reader::{Lent, Reader};
use super::sets::MOST_TEXT;
use faults::Fault;
use names::Name;
use relations::{Arity, Declarations, Mutability, Relation, Signature};
use tokens::{Mark, Token, Tokens, Word};

// Reads the horizon, and answers what is declared with it.
pub fn read_horizon(tokens: &mut Tokens<'_>, declared: Declarations) -> Result<Signature, Fault>
    ensures { framed_told result (cursor tokens.new) ≡ horizon (cursor tokens.old) (known declared) }
{
    tokens.expect(Mark::Horizon)?;
    let placed = tokens.take_number()?;
    let signature = with_horizon(declared, placed)?;
    tokens.expect(Mark::Semicolon)?;
    Ok(signature)
}

// Reads the atoms and the relations.
pub fn read_declarations(tokens: &mut Tokens<'_>, declared: &mut Declarations) -> Result<(), Fault>
    ensures { told result (cursor tokens.new) (known declared.new) ≡ declarations (cursor tokens.old) (known declared.old) }
{
    let mut lent = Lent { tokens, declared };
    lent.atoms()?;
    lent.relations()
}

impl Reader<'_> {
    // Reads the atoms and the relations.
    pub fn declarations(&mut self) -> Result<(), Fault>
        ensures { answer result self.new ≡ from self.old declarations }
    {
        read_declarations(&mut self.tokens, &mut self.declared)
    }
}

impl Lent<'_, '_> {
    // Reads the atoms.
    fn atoms(&mut self) -> Result<(), Fault>
        ensures value { lent_answer result self.new ≡ lent_from self.old atoms }
        ensures same { SameLoans self.old self.new }
    {
        self.tokens.expect(Mark::Atoms)?;
        self.atom()?;
        self.more_atoms()?;
        self.tokens.expect(Mark::Semicolon)?;
        Ok(())
    }

    // Reads atoms up to the sign that ends them.
    // No plainer as one loop with the tuples of a set: it would take the test of the end and the reader as closures that are handed `self`.
    #[tactic(auto, using(crate::proofs::Turns::atoms_none, crate::proofs::Turns::atoms_end, crate::proofs::Turns::atoms_more, crate::proofs::Turns::atoms_fail))]
    fn more_atoms(&mut self) -> Result<(), Fault>
        ensures value { lent_answer result self.new ≡ lent_from self.old (further_atoms most_text) }
        ensures same { SameLoans self.old self.new }
    {
        'atoms: for _turn in 0..MOST_TEXT {
            if self.tokens.is(Mark::Semicolon) {
                break;
            }
            self.atom()?;
        }
        Ok(())
    }

    // Reads an atom, and declares it.
    fn atom(&mut self) -> Result<(), Fault>
        ensures value { lent_answer result self.new ≡ lent_from self.old atom }
        ensures same { SameLoans self.old self.new }
    {
        let placed = self.tokens.take_name()?;
        declare_atom(self.declared, placed)
    }

    // Reads the relations.
    #[tactic(auto, using(crate::proofs::Turns::relations_none, crate::proofs::Turns::relations_end, crate::proofs::Turns::relations_more, crate::proofs::Turns::relations_fail))]
    fn relations(&mut self) -> Result<(), Fault>
        ensures value { lent_answer result self.new ≡ lent_from self.old (relations_of most_text) }
        ensures same { SameLoans self.old self.new }
    {
        'relations: for _turn in 0..MOST_TEXT {
            let Some(mutability) = mutability_of(self.tokens) else {
                break;
            };
            self.tokens.advance();
            self.relation(mutability)?;
        }
        Ok(())
    }

    // Reads a relation after its first word, and declares it.
    fn relation(&mut self, mutability: Mutability) -> Result<(), Fault>
        ensures value { lent_answer result self.new ≡ lent_from self.old (relation_of mutability) }
        ensures same { SameLoans self.old self.new }
    {
        let placed = self.tokens.take_name()?;
        nameable(self.declared, placed)?;
        self.tokens.expect(Mark::Colon)?;
        let arity = read_arity(self.tokens)?;
        self.bounds(mutability, placed.name, arity)
    }

    // Reads the bounds of a relation, and declares it.
    #[tactic(auto, unfolding(crate::specs::Known::known))]
    fn bounds(&mut self, mutability: Mutability, name: Name, arity: Arity) -> Result<(), Fault>
        requires { length (relations_in self.old.declared.now) < 12 }
        ensures value { lent_answer result self.new ≡ lent_from self.old (bounds mutability (spelling name) arity) }
        ensures same { SameLoans self.old self.new }
    {
        let lower = self.set(arity)?;
        let upper = self.set(arity)?;
        if let Some(place) = lower.outside(upper.set()) {
            return Err(Fault::LowerOutsideUpper { place });
        }
        self.tokens.expect(Mark::Semicolon)?;
        declare_relation(
            self.declared,
            Relation::new(name, mutability, arity, lower.set(), upper.set()),
        );
        Ok(())
    }
}

// Whether the next token begins a fixed or a mutable relation, if any.
#[tactic(auto, unfolding(crate::specs::Declaring::mutability_of))]
fn mutability_of(tokens: &Tokens<'_>) -> Option<Mutability>
    ensures { result ≡ mutability_of (head (cursor tokens.now)) }
{
    match tokens.token()? {
        Token::Word(Word::Rel, _) => Some(Mutability::Fixed),
        Token::Word(Word::Var, _) => Some(Mutability::Mutable),
        _ => None,
    }
}

// Reads an arity.
fn read_arity(tokens: &mut Tokens<'_>) -> Result<Arity, Fault>
    ensures { told result (cursor tokens.new) tt ≡ arity_of (cursor tokens.old) }
{
    arity_given(tokens.take_number()?)
}
