ghost use Rattle.std.specs.Prelude.{◌≡◌, [], IfOk};
ghost use Rattle.problem.specs.Drafts.{sorts_of, nodes_of};
ghost use Rattle.problem.specs.Problems.{OneAtom, Fresh, Filled};

use super::super::draft::{Draft, Room};
use super::super::node::{Constant, Node, Test};
use super::super::sort::Kind;
use super::Problem;
use names::Name;
use relations::{Declarations, Signature};
use std::alloc::{AllocError, Global};

impl Problem {
    // The problem of one atom `a`, no relation, one state, and the formula `no none`.
    pub fn fresh(heap: Global) -> Result<Problem, AllocError>
        ensures { IfOk result (λ p. Fresh p) }
    {
        let signature = Signature::new(one_atom(heap)?, 1).unwrap();
        let room = Room::new(heap)?;
        Ok(filled(Draft::new(signature, room)))
    }
}

// The declarations of the atom `a`.
fn one_atom(heap: Global) -> Result<Declarations, AllocError>
    ensures { IfOk result (λ d. OneAtom d) }
{
    let mut declared = Declarations::new(heap)?;
    declared.add_atom(Name::new(b"a")).unwrap();
    Ok(declared)
}

// The formula `no none` in a draft without a node.
fn filled(mut draft: Draft) -> Problem
    requires { (sorts_of draft ≡ []) × (nodes_of draft ≡ []) }
    ensures { Filled draft result }
{
    draft
        .put(Kind::Expression, Node::Constant(Constant::None), 0)
        .unwrap();
    draft
        .put(Kind::Formula, Node::Tested(Test::No, 0), 0)
        .unwrap();
    Problem { draft }
}
