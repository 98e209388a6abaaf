ghost use Rattle.std.specs.Prelude.{◌≡◌, ◌≤◌, Some, None, MatchResult, length, slice_index};
ghost use Rattle.relations.specs.Declarations.{atoms_of, relations_of};
ghost use Rattle.relations.specs.Free.{fitness as fitness_of, sizes, free_places};
ghost use Rattle.relations.specs.Signatures.{Fits};

use super::super::declarations::Declarations;
use super::super::free::Scope;
use super::{MOST_FREE, MOST_HORIZON, Signature, Unfit};

impl Signature {
    // The declarations with a horizon, if they go together.
    pub fn new(declared: Declarations, horizon: usize) -> Result<Signature, Unfit>
        ensures { MatchResult result (λ s. Fits declared horizon s) (λ u. fitness_of (atoms_of declared) (relations_of declared) horizon ≡ Some u) }
    {
        fitness(&declared, horizon)?;
        Ok(Signature { declared, horizon })
    }

    // The atoms and relations.
    pub fn declared(&self) -> &Declarations
        ensures { result.now ≡ self.now.declared }
    {
        &self.declared
    }

    // The most states of a trace that is searched for, 1 to 8.
    pub fn horizon(&self) -> usize
        ensures value { result ≡ self.now.horizon }
        ensures some { 1 ≤ result }
        ensures few { result ≤ 8 }
    {
        self.horizon
    }

    // How many tuples the relation at an index may have, 0 beyond the last.
    pub fn size(&self, relation: usize) -> usize
        ensures value { result ≡ slice_index (sizes (length (atoms_of self.now.declared)) (relations_of self.now.declared)) relation }
        ensures few { result ≤ 64 }
    {
        self.scope().size_at(self.declared.relations(), relation)
    }

    // The free fixed places, and the free mutable ones for each state of the horizon: at most 256.
    pub fn free_places(&self) -> usize
        ensures value { result ≡ free_places (length (atoms_of self.now.declared)) (relations_of self.now.declared) self.now.horizon }
        ensures few { result ≤ 256 }
    {
        self.scope().free_places(self.declared.relations())
    }

    // How many atoms and states there are.
    fn scope(&self) -> Scope
        ensures atoms { result.atoms ≡ length (atoms_of self.now.declared) }
        ensures horizon { result.horizon ≡ self.now.horizon }
    {
        Scope::new(self.declared.atom_count(), self.horizon)
    }
}

// Whether declarations and a horizon go together, or why not.
fn fitness(declared: &Declarations, horizon: usize) -> Result<(), Unfit>
    ensures { MatchResult result (λ _. fitness_of (atoms_of declared.now) (relations_of declared.now) horizon ≡ None) (λ u. fitness_of (atoms_of declared.now) (relations_of declared.now) horizon ≡ Some u) }
{
    let atoms = declared.atom_count();
    if atoms == 0 || horizon == 0 || horizon > MOST_HORIZON {
        return Err(Unfit::Limit);
    }
    if Scope::new(atoms, horizon).free_places(declared.relations()) > MOST_FREE {
        return Err(Unfit::FreePlaces);
    }
    Ok(())
}
