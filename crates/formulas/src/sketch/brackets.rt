ghost use Rattle.std.specs.Prelude.{◌≡◌};
ghost use Rattle.tokens.specs.Outcomes.{changes};
ghost use Rattle.formulas.specs.Bodies.{opens};
ghost use Rattle.formulas.specs.Outcomes.{opened, closed, closes};

use super::Bracket;
use faults::Fault;
use stack::Stack;

// A bracket more is open, if there may be one more.
#[tactic(auto, using(crate::proofs::Stacking::opened_more, crate::proofs::Stacking::opened_full))]
pub fn open(brackets: &mut Stack<'_, Bracket>, place: usize) -> Result<(), Fault>
    ensures { changes result (opens brackets.new) ≡ opened place (opens brackets.old) }
{
    brackets
        .push(Bracket { place })
        .map_err(|_| Fault::OverLimit { place })
}

// The place of the latest bracket, which is open no more; none where none is open.
#[tactic(auto, using(crate::proofs::Stacking::closed_some, crate::proofs::Stacking::closed_none))]
pub fn close(brackets: &mut Stack<'_, Bracket>) -> Option<usize>
    ensures { closes result (opens brackets.new) ≡ closed (opens brackets.old) }
{
    brackets.pop().map(|bracket| bracket.place)
}
