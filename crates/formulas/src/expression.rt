ghost use Rattle.std.specs.Prelude.{◌≡◌};
ghost use Rattle.tokens.specs.Cursors.{cursor};
ghost use Rattle.formulas.specs.Bodies.{body, Open};
ghost use Rattle.formulas.specs.Outcomes.{told};
ghost use Rattle.problem.specs.Sorts.{most_parts};
ghost use Rattle.names.specs.Names.{spelling};
ghost use Rattle.formulas.specs.Expressions.{primary as primary_of, primed, begun, bracketed, at_end, combined as combined_of, prime as prime_of, primes as primes_of, expression as expression_of, after_name};
ghost use Rattle.formulas.specs.Parsers.{answer, from};

use super::parser::{Nesting, Parser};
use super::sketch::{Bracket, open};
use super::start::{Head, head_of, operator_of};
use super::wish::{Wish, Wishes, ask};
use faults::Fault;
use problem::{Kind, MOST_PARTS, Node};
use stack::Stack;
use tokens::{Mark, PlacedName};

impl Parser<'_> {
    // Reads an expression of the arity that is wished for.
    #[cycle(begin_bracketed_expression_primary)]
    pub fn expression(
        &mut self,
        nesting: Nesting<'_, '_>,
        wish: Option<Wish>,
    ) -> Result<usize, Fault>
        ensures { answer result self.new nesting.exit.0.now ≡ from self.old nesting.entry.brackets.now (expression_of nesting.entry.levels wish) }
    {
        let Nesting { brackets, levels } = nesting;
        let place = self.tokens.place();
        let part = self.primary(Nesting { brackets, levels }, Wishes::of_whole(wish))?;
        self.primes(place, wish, part)
    }

    // Reads an expression that begins with a name, after the name.
    pub fn after_name(&mut self, placed: PlacedName) -> Result<usize, Fault>
        ensures { (o : Open) → told result (cursor self.new.tokens) (body self.new.sketch) o ≡ after_name (spelling placed.name) placed.place (cursor self.old.tokens) (body self.old.sketch) o }
    {
        let part = self.sketch.named(placed, Wishes::of_whole(None))?;
        self.primes(placed.place, None, part)
    }

    // Reads the ' signs after an expression whose first token is at a place.
    // No plainer as one loop with those of a declaration: it would take the test of the end and the reader as closures that are handed `self`.
    #[tactic(auto, using(crate::proofs::Levels::primes_none, crate::proofs::Levels::primes_end, crate::proofs::Levels::primes_more, crate::proofs::Levels::primes_fail))]
    fn primes(&mut self, place: usize, wish: Option<Wish>, part: usize) -> Result<usize, Fault>
        ensures { (o : Open) → told result (cursor self.new.tokens) (body self.new.sketch) o ≡ primes_of most_parts place wish part (cursor self.old.tokens) (body self.old.sketch) o }
    {
        let mut whole = part;
        'primes: for _turn in 0..MOST_PARTS {
            if !self.tokens.is(Mark::Prime) {
                break;
            }
            whole = self.prime(place, wish, whole)?;
        }
        Ok(whole)
    }

    // Reads a part without its ' signs, at most so many levels deep.
    #[tactic(auto, using(crate::proofs::Levels::primary_none, crate::proofs::Levels::primary_more))]
    #[cycle(begin_bracketed_expression_primary)]
    fn primary(&mut self, nesting: Nesting<'_, '_>, wishes: Wishes) -> Result<usize, Fault>
        ensures { answer result self.new nesting.exit.0.now ≡ from self.old nesting.entry.brackets.now (primary_of nesting.entry.levels wishes.under wishes.whole) }
    {
        let Nesting { brackets, levels } = nesting;
        let levels = self.deeper(levels)?;
        self.begin(Nesting { brackets, levels }, wishes)
    }

    // Reads a part by what it begins with.
    #[cycle(begin_bracketed_expression_primary)]
    fn begin(&mut self, nesting: Nesting<'_, '_>, wishes: Wishes) -> Result<usize, Fault>
        ensures { answer result self.new nesting.exit.0.now ≡ from self.old nesting.entry.brackets.now (begun (primary_of nesting.entry.levels) wishes.under wishes.whole) }
    {
        let Nesting { brackets, levels } = nesting;
        let place = self.tokens.place();
        let seen = head_of(&self.tokens);
        let head = self.tokens.take(seen)?;
        match head {
            Head::Name(name) => {
                let wishes = self.at_end(wishes);
                self.sketch.named(PlacedName { name, place }, wishes)
            }
            Head::Constant(constant) => {
                let wishes = self.at_end(wishes);
                self.sketch.constant(constant, place, wishes)
            }
            Head::Turn(turn) => {
                self.sketch.count(place)?;
                let wishes = Wishes {
                    under: Some(Wish { arity: 2, place }),
                    whole: wishes.whole,
                };
                let operand = self.primary(Nesting { brackets, levels }, wishes)?;
                self.sketch
                    .put(Kind::Expression, Node::Turned(turn, operand), place)
            }
            Head::Open => self.bracketed(Nesting { brackets, levels }, place, wishes),
        }
    }

    // Reads two expressions and the sign between them, after the bracket that opens.
    #[cycle(begin_bracketed_expression_primary)]
    fn bracketed(
        &mut self,
        nesting: Nesting<'_, '_>,
        place: usize,
        wishes: Wishes,
    ) -> Result<usize, Fault>
        ensures { answer result self.new nesting.exit.0.now ≡ from self.old nesting.entry.brackets.now (bracketed (expression_of nesting.entry.levels) place wishes.under wishes.whole) }
    {
        let Nesting { brackets, levels } = nesting;
        open(brackets, place)?;
        let left = self.expression(Nesting { brackets, levels }, None)?;
        let seen = operator_of(&self.tokens);
        let operator = self.sign(seen)?;
        let right = self.expression(Nesting { brackets, levels }, None)?;
        self.combined(brackets, Node::Combined(operator, left, right), wishes)
    }

    // Reads the bracket that closes, and puts what stands in the brackets.
    fn combined(
        &mut self,
        brackets: &mut Stack<'_, Bracket>,
        node: Node,
        wishes: Wishes,
    ) -> Result<usize, Fault>
        ensures { answer result self.new brackets.new ≡ from self.old brackets.old (combined_of node wishes.under wishes.whole) }
    {
        let place = self.close(brackets, Mark::CloseBracket)?;
        let whole = self.sketch.put(Kind::Expression, node, place)?;
        let arity = self.sketch.arity(whole);
        let asked = self.at_end(wishes);
        ask(asked.under, arity)?;
        ask(asked.whole, arity)?;
        Ok(whole)
    }

    // What is asked after the last token of an expression: nothing yet of the whole where a ' sign goes on with it.
    fn at_end(&self, wishes: Wishes) -> Wishes
        ensures under { result.under ≡ wishes.under }
        ensures whole { result.whole ≡ at_end wishes.whole (cursor self.now.tokens) }
    {
        Wishes {
            under: wishes.under,
            whole: self.whole_wish(wishes.whole),
        }
    }

    // What is asked of a whole expression after one of its tokens: nothing yet where a ' sign goes on with it.
    fn whole_wish(&self, wish: Option<Wish>) -> Option<Wish>
        ensures { result ≡ at_end wish (cursor self.now.tokens) }
    {
        if self.tokens.is(Mark::Prime) {
            return None;
        }
        wish
    }

    // Reads one ' sign after an expression; the arity is judged before the part is counted.
    fn prime(&mut self, place: usize, wish: Option<Wish>, part: usize) -> Result<usize, Fault>
        ensures { (o : Open) → told result (cursor self.new.tokens) (body self.new.sketch) o ≡ prime_of place wish part (cursor self.old.tokens) (body self.old.sketch) o }
    {
        let at = self.tokens.place();
        self.tokens.advance();
        ask(self.whole_wish(wish), self.sketch.arity(part))?;
        self.sketch.count(at)?;
        self.sketch.put(Kind::Expression, Node::Next(part), place)
    }
}
