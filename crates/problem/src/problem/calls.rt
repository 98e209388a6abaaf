ghost use Rattle.std.specs.Prelude.{◌≡◌, ◌+◌, ◌≤◌, true, map, length, MatchOption, slice_index};
ghost use Rattle.std.specs.List.{slice_get};
ghost use Rattle.relations.specs.Relations.{atom_name, relation_name, declared_of};
ghost use Rattle.relations.specs.Declarations.{declared_name};
ghost use Rattle.relations.specs.Free.{free_places};
ghost use Rattle.problem.specs.Sorts.{part_node, part_sort, is_formula, sort_at, bound_at, Whole};
ghost use Rattle.problem.specs.Drafts.{sorts_of};
ghost use Rattle.problem.specs.Problems.{atoms_in, relations_in, sizes_in, horizon_of, nodes_in, sorts_in};

use super::super::draft::Draft;
use super::super::part::Part;
use super::super::sort::Sort;
use super::Problem;
use relations::{Atom, Relation};

impl Draft {
    // The problem of the formula that the last node is, if it is one and uses no variable.
    pub fn whole(self) -> Option<Problem>
        ensures { MatchOption result (Whole (sorts_of self) → ⊥) (λ p. (p.draft ≡ self) × Whole (sorts_of self)) }
    {
        if self.is_whole() {
            return Some(Problem { draft: self });
        }
        None
    }
}

impl Problem {
    // The atoms, 1 to 8, by their numbers.
    pub fn atoms(&self) -> &[Atom]
        ensures names { map atom_name result.now ≡ atoms_in self.now }
        ensures len { length result.now ≡ length (atoms_in self.now) }
        ensures some { 1 ≤ length result.now }
        ensures few { length result.now ≤ 8 }
    {
        self.draft.signature().declared().atoms()
    }

    // The relations, at most 12, by their numbers.
    pub fn relations(&self) -> &[Relation]
        ensures value { map declared_of result.now ≡ relations_in self.now }
        ensures names { map relation_name result.now ≡ map declared_name (relations_in self.now) }
        ensures len { length result.now ≡ length (relations_in self.now) }
        ensures few { length result.now ≤ 12 }
    {
        self.draft.signature().declared().relations()
    }

    // How many tuples the relation at an index may have, 0 beyond the last.
    pub fn size(&self, relation: usize) -> usize
        ensures value { result ≡ slice_index (sizes_in self.now) relation }
        ensures few { result ≤ 64 }
    {
        self.draft.signature().size(relation)
    }

    // The most states of a trace that is searched for, 1 to 8.
    pub fn horizon(&self) -> usize
        ensures value { result ≡ horizon_of self.now }
        ensures some { 1 ≤ result }
        ensures few { result ≤ 8 }
    {
        self.draft.signature().horizon()
    }

    // The nodes of the formula, and what each is; the parts of a node stand before it.
    pub fn parts(&self) -> &[Part]
        ensures nodes { map part_node result.now ≡ nodes_in self.now }
        ensures sorts { map part_sort result.now ≡ sorts_in self.now }
        ensures len { length result.now ≡ length (nodes_in self.now) }
        ensures few { length result.now ≤ 256 }
    {
        self.draft.parts()
    }

    // The index of the whole formula: the last node.
    pub fn root(&self) -> usize
        ensures last { result + 1 ≡ length (nodes_in self.now) }
        ensures formula { is_formula (sort_at (sorts_in self.now) result) ≡ true }
        ensures closed { bound_at (sorts_in self.now) result ≡ 0 }
    {
        self.parts().len() - 1
    }

    // What a node is; none beyond the end.
    pub fn sort(&self, node: usize) -> Option<Sort>
        ensures { result ≡ slice_get (sorts_in self.now) node }
    {
        self.draft.sort(node)
    }

    // The free fixed places, and the free mutable ones for each state of the horizon: at most 256.
    pub fn free_places(&self) -> usize
        ensures value { result ≡ free_places (length (atoms_in self.now)) (relations_in self.now) (horizon_of self.now) }
        ensures few { result ≤ 256 }
    {
        self.draft.signature().free_places()
    }
}
