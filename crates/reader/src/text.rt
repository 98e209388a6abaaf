ghost use Rattle.std.specs.Prelude.{◌≡◌, [], IfOk};
ghost use Rattle.tokens.specs.Cursors.{cursor};
ghost use Rattle.problem.specs.Sorts.{Whole};
ghost use Rattle.problem.specs.Drafts.{sorts_of};
ghost use Rattle.formulas.specs.Bodies.{body};
ghost use Rattle.formulas.specs.Formulas.{formula, levels};
ghost use Rattle.tokens.specs.Outcomes.{told};
ghost use Rattle.declaring.specs.Known.{known, framed};
ghost use Rattle.reader.specs.Reading.{contents, contents_of, contents_told, value_of, formula_only, no_bracket, formula_text, problem_text, unread, reading};
ghost use Rattle.reader.specs.Settled.{Settled};

use super::space::Space;
use declaring::{MOST_TEXT, Reader, read_horizon};
use faults::Fault;
use formulas::{Bracket, MOST_BRACKETS, MOST_LEVELS, Nesting, Parser, Scope, Sketch};
use problem::{Draft, Problem, Room};
use relations::{Declarations, Signature};
use stack::Stack;
use tokens::{Mark, Tokens};

// What it means that a text is refused.
#[tactic(auto, using(crate::proofs::Settling::settled))]
pub(crate) fn read_text(text: &[u8], space: Space) -> Result<Problem, Fault>
    ensures value { contents_told result ≡ reading text.now }
    ensures settled { Settled text.now result }
{
    problem_in(text, space)
}

// Reads a text into a new problem.
#[tactic(auto, unfolding(crate::specs::Reading::reading))]
fn problem_in(text: &[u8], space: Space) -> Result<Problem, Fault>
    ensures { contents_told result ≡ reading text.now }
{
    if text.len() > MOST_TEXT {
        return Err(Fault::TextTooLong);
    }
    let (declared, room, scope) = space.parts();
    read_problem(Tokens::new(text), declared, room, scope)
}

// Reads a problem from its first token on.
#[tactic(auto, unfolding(crate::specs::Reading::problem_text))]
fn read_problem(
    tokens: Tokens<'_>,
    declared: Declarations,
    room: Room,
    scope: Scope,
) -> Result<Problem, Fault>
    ensures { contents_told result ≡ value_of (problem_text (cursor tokens.entry) (known declared)) }
{
    let mut reader = Reader { tokens, declared };
    reader.declarations()?;
    let Reader {
        mut tokens,
        declared,
    } = reader;
    let signature = read_horizon(&mut tokens, declared)?;
    let sketch = sketch_over(signature, room, scope);
    read_formula(Parser { tokens, sketch })
}

// A formula of which nothing is read, over what is declared.
#[tactic(auto, using(crate::proofs::Starting::begun_unread, crate::proofs::Starting::begun_scope))]
fn sketch_over(signature: Signature, room: Room, scope: Scope) -> Sketch
    ensures unread { body result ≡ unread (framed signature) }
    ensures scope { (body result).scope ≡ [] }
{
    Sketch::new(Draft::new(signature, room), scope)
}

// Reads the formula and the end of the text.
#[tactic(auto, unfolding(crate::specs::Reading::formula_text))]
fn read_formula(mut parser: Parser<'_>) -> Result<Problem, Fault>
    requires { (body parser.sketch).scope ≡ [] }
    ensures { contents_told result ≡ value_of (formula_text (body parser.entry.sketch) (cursor parser.entry.tokens)) }
{
    parser.tokens.expect(Mark::Formula)?;
    whole_formula(&mut parser)?;
    parser.tokens.expect(Mark::End)?;
    Ok(finish(parser.sketch))
}

// Reads the formula.
#[tactic(auto, using(crate::proofs::Starting::read_alone))]
fn whole_formula(parser: &mut Parser<'_>) -> Result<usize, Fault>
    requires { (body parser.old.sketch).scope ≡ [] }
    ensures value { told result (cursor parser.new.tokens) (body parser.new.sketch) ≡ formula_only (formula levels (cursor parser.old.tokens) (body parser.old.sketch) no_bracket) }
    ensures whole { IfOk result (λ _. Whole (sorts_of parser.new.sketch.draft)) }
{
    let mut places = [Bracket { place: 0 }; MOST_BRACKETS];
    let mut brackets = Stack::new(&mut places);
    parser.formula(Nesting {
        brackets: &mut brackets,
        levels: MOST_LEVELS,
    })
}

// The problem of a formula that was read.
#[tactic(auto, using(crate::proofs::Starting::held_whole))]
fn finish(sketch: Sketch) -> Problem
    requires { Whole (sorts_of sketch.draft) }
    ensures { contents result ≡ contents_of (body sketch) }
{
    sketch.into_draft().whole().unwrap()
}
