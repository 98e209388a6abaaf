ghost use Rattle.std.specs.Prelude.{◌≡◌, ◌≤◌, true, map, length, IfOk, Decides, MatchResult};
ghost use Rattle.std.specs.List.{slice_get};
ghost use Rattle.problem.specs.Sorts.{part_node, part_sort, placed as placed_of, arity_at, arity_of_kind, arity_found, Whole};
ghost use Rattle.problem.specs.Drafts.{nodes_of, sorts_of, arities_of, Begun, Put, NotPut, Kept, Last, Placed, Added};

use super::super::judge::{judge, wanted};
use super::super::node::Node;
use super::super::part::Part;
use super::super::sort::{Kind, Misfit, Sort};
use super::{Draft, MOST_PARTS, Room};
use relations::Signature;
use std::alloc::{AllocError, Global};

impl Room {
    // Asks for the memory of all nodes that a formula may have.
    pub fn new(heap: Global) -> Result<Room, AllocError> {
        let parts = Vec::with_capacity(heap, MOST_PARTS)?;
        Ok(Room { parts })
    }
}

impl Draft {
    // No node yet.
    pub fn new(signature: Signature, room: Room) -> Draft
        ensures { Begun signature result }
    {
        Draft {
            signature,
            parts: room.parts,
        }
    }

    // Puts a node at the end if it fits, is of that kind, and uses at most so many variables; else nothing alters.
    pub fn put(&mut self, kind: Kind, node: Node, bound: usize) -> Result<usize, Misfit>
        ensures value { MatchResult result (λ i. Put kind bound node self.old self.new i) (λ m. NotPut kind bound node self.old self.new m) }
        ensures kept { Kept self.old self.new }
        ensures last { IfOk result (λ i. Last kind bound self.new i) }
    {
        let sort = placed(self, kind, node, bound)?;
        Ok(add(self, kind, bound, Part { node, sort }))
    }

    // The arity of a node, 0 for a formula, and 0 beyond the end.
    #[tactic(auto, using(crate::proofs::Judging::arity_known))]
    pub fn arity(&self, node: usize) -> usize
        ensures { result ≡ arity_at (sorts_of self.now) node }
    {
        self.sort(node).map_or(0, Sort::arity)
    }

    // What a node is; none beyond the end.
    pub fn sort(&self, node: usize) -> Option<Sort>
        ensures { result ≡ slice_get (sorts_of self.now) node }
    {
        self.parts.get(node).map(|part| part.sort)
    }

    // Whether there is a node, and the last one is a formula that uses no variable.
    pub fn is_whole(&self) -> bool
        ensures { Decides result (Whole (sorts_of self.now)) }
    {
        self.parts
            .last()
            .is_some_and(|part| matches!(part.sort, Sort::Formula { bound: 0, .. }))
    }

    pub fn signature(&self) -> &Signature
        ensures { result.now ≡ self.now.signature }
    {
        &self.signature
    }

    // The nodes so far, and what each is, at most 256.
    pub fn parts(&self) -> &[Part]
        ensures nodes { map part_node result.now ≡ nodes_of self.now }
        ensures sorts { map part_sort result.now ≡ sorts_of self.now }
        ensures len { length result.now ≡ length (nodes_of self.now) }
        ensures few { length result.now ≤ 256 }
    {
        self.parts.as_slice()
    }
}

// What a node at the end would be.
#[tactic(auto, using(crate::proofs::Judging::arity_made))]
fn placed(draft: &Draft, kind: Kind, node: Node, bound: usize) -> Result<Sort, Misfit>
    ensures value { result ≡ placed_of (arities_of draft.now) (sorts_of draft.now) kind bound node }
    ensures fits { IfOk result (λ s. Placed kind bound node draft.now s) }
    ensures arity { arity_found kind result ≡ true }
{
    if draft.parts.len() >= MOST_PARTS {
        return Err(Misfit::Room);
    }
    let judged = judge(
        node,
        draft.signature.declared().relations(),
        draft.parts.as_slice(),
    );
    wanted(kind, bound, judged)
}

// Puts a node that fits at the end.
fn add(draft: &mut Draft, kind: Kind, bound: usize, part: Part) -> usize
    requires fits { Placed kind bound part.node draft.old part.sort }
    requires arity { arity_of_kind kind part.sort ≡ true }
    ensures { Added kind bound part.node part.sort draft.old draft.new result }
{
    let at = draft.parts.len();
    draft.parts.push_reserved(part);
    at
}
