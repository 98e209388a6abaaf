ghost use Rattle.std.specs.Prelude.{◌≡◌, ◌≤◌, [], ◌∷◌, ◌++◌, map, length, IfOk, is_ok, if◌then◌else◌, nat_lt};
ghost use Rattle.names.specs.Names.{spelling};
ghost use Rattle.relations.specs.Relations.{atom_name, relation_name, declared_of};
ghost use Rattle.relations.specs.Declarations.{atoms_of, relations_of, declared_name, declares};

use super::super::relation::{Atom, Relation};
use super::{Declarations, MOST_ATOMS, MOST_RELATIONS, NoRoom};
use names::{Name, lookup};
use std::alloc::{AllocError, Global};

impl Declarations {
    // No atom and no relation, with room for all that there may be.
    pub fn new(heap: Global) -> Result<Declarations, AllocError>
        ensures { IfOk result (λ d. (atoms_of d ≡ []) × (relations_of d ≡ [])) }
    {
        let atoms = Vec::with_capacity(heap, MOST_ATOMS)?;
        let relations = Vec::with_capacity(heap, MOST_RELATIONS)?;
        Ok(Declarations { atoms, relations })
    }

    // Declares an atom; else there is no room, and nothing alters.
    pub fn add_atom(&mut self, name: Name) -> Result<(), NoRoom>
        ensures value { is_ok result ≡ nat_lt (length (atoms_of self.old)) 8 }
        ensures atoms { atoms_of self.new ≡ (if is_ok result then atoms_of self.old ++ spelling name ∷ [] else atoms_of self.old) }
        ensures relations { relations_of self.new ≡ relations_of self.old }
    {
        if self.atom_count() >= MOST_ATOMS {
            return Err(NoRoom);
        }
        self.atoms.push_reserved(Atom::new(name));
        Ok(())
    }

    // Declares a relation; else there is no room, and nothing alters.
    pub fn add_relation(&mut self, relation: Relation) -> Result<(), NoRoom>
        ensures value { is_ok result ≡ nat_lt (length (relations_of self.old)) 12 }
        ensures relations { relations_of self.new ≡ (if is_ok result then relations_of self.old ++ declared_of relation ∷ [] else relations_of self.old) }
        ensures atoms { atoms_of self.new ≡ atoms_of self.old }
    {
        if self.relation_count() >= MOST_RELATIONS {
            return Err(NoRoom);
        }
        self.relations.push_reserved(relation);
        Ok(())
    }

    // How many atoms there are, at most 8.
    pub fn atom_count(&self) -> usize
        ensures value { result ≡ length (atoms_of self.now) }
        ensures few { result ≤ 8 }
    {
        self.atoms.len()
    }

    // How many relations there are, at most 12.
    pub fn relation_count(&self) -> usize
        ensures value { result ≡ length (relations_of self.now) }
        ensures few { result ≤ 12 }
    {
        self.relations.len()
    }

    // The atoms, by their numbers.
    pub fn atoms(&self) -> &[Atom]
        ensures names { map atom_name result.now ≡ atoms_of self.now }
        ensures len { length result.now ≡ length (atoms_of self.now) }
        ensures few { length result.now ≤ 8 }
    {
        self.atoms.as_slice()
    }

    // The relations, by their numbers.
    #[tactic(auto, using(crate::proofs::Maps::names_of))]
    pub fn relations(&self) -> &[Relation]
        ensures value { map declared_of result.now ≡ relations_of self.now }
        ensures names { map relation_name result.now ≡ map declared_name (relations_of self.now) }
        ensures len { length result.now ≡ length (relations_of self.now) }
        ensures few { length result.now ≤ 12 }
    {
        self.relations.as_slice()
    }

    // Whether a name is that of an atom or of a relation.
    pub fn declares(&self, name: Name) -> bool
        ensures { result ≡ declares (atoms_of self.now) (relations_of self.now) (spelling name) }
    {
        let name = name.as_bytes();
        lookup(self.atoms(), name).is_some() || lookup(self.relations(), name).is_some()
    }
}
