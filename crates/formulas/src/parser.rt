ghost use Rattle.std.specs.Prelude.{◌≡◌, ◌+◌, Some, IfOk, IfErr};
ghost use Rattle.tokens.specs.Items.{place_of, refusal};
ghost use Rattle.tokens.specs.Cursors.{cursor, head, step};
ghost use Rattle.tokens.specs.Outcomes.{taking, alter, changed};
ghost use Rattle.formulas.specs.Bodies.{body, Open};
ghost use Rattle.formulas.specs.Outcomes.{ok, told, counted, closed, closing};
ghost use Rattle.formulas.specs.Parsers.{answer, from};

use super::sketch::{Bracket, Sketch, close};
use faults::Fault;
use stack::Stack;
use tokens::{Mark, Tokens};

// The most brackets that are open at once.
pub const MOST_BRACKETS: usize = 32;

// Deeper than parts and brackets can nest.
pub const MOST_LEVELS: usize = 290;

// What is left to read, and what is read.
#[derive(Drop)]
pub struct Parser<'a> {
    pub tokens: Tokens<'a>,
    pub sketch: Sketch,
}

// The brackets that are open, and how many levels deep the next part may go. It goes beside the parser from call to call (tried: a
// field; the borrow checker has no rule yet for reading the tokens beside a slice that is lent to be written), and each function takes
// it apart (tried: passed on whole; the proof of a cycle of calls does not cover that yet).
#[derive(Drop)]
pub struct Nesting<'a, 'b> {
    pub brackets: &'a mut Stack<'b, Bracket>,
    pub levels: usize,
}

impl Parser<'_> {
    // One level less, where one is left; else the next token cannot stand there.
    pub(crate) fn deeper(&mut self, levels: usize) -> Result<usize, Fault>
        ensures less { IfOk result (λ n. n + 1 ≡ levels) }
        ensures kept { IfOk result (λ _. self.new ≡ self.old) }
        ensures none { IfErr result (λ _. levels ≡ 0) }
        ensures fault { IfErr result (λ f. f ≡ refusal (head (cursor self.old.tokens))) }
        ensures rest { IfErr result (λ _. cursor self.new.tokens ≡ step (cursor self.old.tokens)) }
    {
        let Some(under) = levels.checked_sub(1) else {
            return Err(self.tokens.refuse());
        };
        Ok(under)
    }

    // Takes the next token, which has to be what was seen in it, and counts it as a part.
    pub(crate) fn sign<T: Copy>(&mut self, seen: Option<T>) -> Result<T, Fault>
        ensures seen { IfOk result (λ x. Some x ≡ seen) }
        ensures counted { IfOk result (λ _. changed tt (body self.new.sketch) ≡ counted (place_of (head (cursor self.old.tokens))) (body self.old.sketch)) }
        ensures rest { IfOk result (λ _. cursor self.new.tokens ≡ step (cursor self.old.tokens)) }
        ensures value { (o : Open) → told result (cursor self.new.tokens) (body self.new.sketch) o ≡ taking seen (cursor self.old.tokens) (λ x c. alter (counted (place_of (head (cursor self.old.tokens))) (body self.old.sketch)) c (λ _ b. ok x c b o)) }
    {
        let place = self.tokens.place();
        let sign = self.tokens.take(seen)?;
        self.sketch.count(place)?;
        Ok(sign)
    }

    // Takes the mark that closes the latest bracket, and answers the bracket's place.
    pub(crate) fn close(
        &mut self,
        brackets: &mut Stack<'_, Bracket>,
        mark: Mark,
    ) -> Result<usize, Fault>
        ensures { answer result self.new brackets.new ≡ from self.old brackets.old (λ c b o. closing (closed o) mark c (λ p c₁ o₁. ok p c₁ b o₁)) }
    {
        let Some(place) = close(brackets) else {
            return Err(self.tokens.refuse());
        };
        self.tokens.expect(mark)?;
        Ok(place)
    }
}
