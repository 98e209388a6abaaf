ghost use Rattle.std.specs.Prelude.{◌≡◌, ◌≤◌, map, length, slice_index};
ghost use Rattle.relations.specs.Relations.{declared_of};
ghost use Rattle.relations.specs.Free.{size_of, sizes, times_of, free_of, free_places};

use super::relation::{Arity, Mutability, Relation};

// Why declarations and a horizon do not go together.
#[derive(Clone, Copy, PartialEq, Eq, Debug)]
pub enum Unfit {
    Limit,
    FreePlaces,
}

// How many atoms there are, and how many states a trace may have.
#[derive(Clone, Copy)]
pub(crate) struct Scope {
    atoms: usize,
    horizon: usize,
    ghost few_atoms: { atoms ≤ 8 },
    ghost few_states: { horizon ≤ 8 },
}

impl Scope {
    // So many atoms and states, few of each.
    pub(crate) fn new(atoms: usize, horizon: usize) -> Scope
        requires atoms { atoms ≤ 8 }
        requires horizon { horizon ≤ 8 }
        ensures atoms { result.atoms ≡ atoms }
        ensures horizon { result.horizon ≡ horizon }
    {
        Scope { atoms, horizon }
    }

    // How many tuples the relation at an index may have, 0 beyond the end.
    #[tactic(auto, using(crate::proofs::Sizes::size_got, crate::proofs::Sizes::no_size))]
    pub(crate) fn size_at(self, relations: &[Relation], at: usize) -> usize
        ensures value { result ≡ slice_index (sizes self.atoms (map declared_of relations.now)) at }
        ensures few { result ≤ 64 }
    {
        relations
            .get(at)
            .map_or(0, |relation| self.size(relation.arity()))
    }

    // The free fixed places, and the free mutable ones for each state.
    pub(crate) fn free_places(self, relations: &[Relation]) -> usize
        requires { length relations.now ≤ 12 }
        ensures { result ≡ free_places self.atoms (map declared_of relations.now) self.horizon }
    {
        relations.iter().map(|relation| self.free(relation)).sum()
    }

    // How much a relation counts.
    fn free(self, relation: &Relation) -> usize
        ensures value { result ≡ free_of self.atoms self.horizon (declared_of relation.now) }
        ensures few { result ≤ 512 }
    {
        self.times(relation.mutability()) * relation.free(self.size(relation.arity()))
    }

    // How many tuples of an arity there are.
    fn size(self, arity: Arity) -> usize
        ensures value { result ≡ size_of self.atoms arity }
        ensures few { result ≤ 64 }
    {
        match arity {
            Arity::One => self.atoms,
            Arity::Two => self.atoms * self.atoms,
        }
    }

    // How many states a free place counts for.
    fn times(self, mutability: Mutability) -> usize
        ensures value { result ≡ times_of self.horizon mutability }
        ensures few { result ≤ 8 }
    {
        match mutability {
            Mutability::Fixed => 1,
            Mutability::Mutable => self.horizon,
        }
    }
}
