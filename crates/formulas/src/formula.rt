ghost use Rattle.std.specs.Prelude.{◌≡◌, Some, None, IfOk, IfErr, MatchResult};
ghost use Rattle.tokens.specs.Cursors.{cursor, head, step};
ghost use Rattle.tokens.specs.Items.{name_of, place_of, refusal};
ghost use Rattle.names.specs.Names.{spelling};
ghost use Rattle.formulas.specs.Expressions.{expression as expression_of, after_name};
ghost use Rattle.formulas.specs.Formulas.{formula as formula_of, begun, prefixed as prefixed_of, joined as joined_of, tested as tested_of, compared as compared_of, all as all_of, some as some_of, some_named, domain as domain_of, range as range_of, scope as scope_of};
ghost use Rattle.formulas.specs.Parsers.{answer, from};

use super::parser::{Nesting, Parser};
use super::sketch::{Bracket, open};
use super::start::{Start, comparison_of, infix_of, start_of};
use super::wish::Wish;
use faults::Fault;
use problem::{Kind, Node, Prefix, Quantifier, Test};
use stack::Stack;
use tokens::{Mark, PlacedName, Tokens};

// How a quantifier begins: its word with its place, and its variable.
#[derive(Clone, Copy)]
struct Opening {
    quantifier: Quantifier,
    place: usize,
    variable: PlacedName,
}

impl Parser<'_> {
    // Reads a formula, at most so many levels deep.
    #[tactic(auto, using(crate::proofs::Levels::formula_none, crate::proofs::Levels::formula_more))]
    #[cycle(all_domain_formula_joined_prefixed_range_scope_some_some_named_start)]
    pub fn formula(&mut self, nesting: Nesting<'_, '_>) -> Result<usize, Fault>
        ensures { answer result self.new nesting.exit.0.now ≡ from self.old nesting.entry.brackets.now (formula_of nesting.entry.levels) }
    {
        let Nesting { brackets, levels } = nesting;
        let levels = self.deeper(levels)?;
        self.start(Nesting { brackets, levels })
    }

    // Reads a formula by what it begins with.
    #[cycle(all_domain_formula_joined_prefixed_range_scope_some_some_named_start)]
    fn start(&mut self, nesting: Nesting<'_, '_>) -> Result<usize, Fault>
        ensures { answer result self.new nesting.exit.0.now ≡ from self.old nesting.entry.brackets.now (begun (expression_of nesting.entry.levels) after_name (formula_of nesting.entry.levels)) }
    {
        let Nesting { brackets, levels } = nesting;
        let place = self.tokens.place();
        match start_of(&self.tokens) {
            Start::Prefix(prefix) => {
                self.tokens.advance();
                self.prefixed(Nesting { brackets, levels }, prefix, place)
            }
            Start::Open => {
                self.tokens.advance();
                self.joined(Nesting { brackets, levels }, place)
            }
            Start::All => {
                self.tokens.advance();
                self.sketch.count(place)?;
                self.all(Nesting { brackets, levels }, place)
            }
            Start::Some => {
                self.tokens.advance();
                self.sketch.count(place)?;
                self.some(Nesting { brackets, levels }, place)
            }
            Start::No => {
                self.tokens.advance();
                self.sketch.count(place)?;
                self.tested(Nesting { brackets, levels }, Test::No, place)
            }
            Start::Expression => self.compared(Nesting { brackets, levels }),
        }
    }

    // Reads the formula after a prefix word.
    #[cycle(all_domain_formula_joined_prefixed_range_scope_some_some_named_start)]
    fn prefixed(
        &mut self,
        nesting: Nesting<'_, '_>,
        prefix: Prefix,
        place: usize,
    ) -> Result<usize, Fault>
        ensures { answer result self.new nesting.exit.0.now ≡ from self.old nesting.entry.brackets.now (prefixed_of (formula_of nesting.entry.levels) prefix place) }
    {
        let Nesting { brackets, levels } = nesting;
        self.sketch.count(place)?;
        let inner = self.formula(Nesting { brackets, levels })?;
        self.sketch
            .put(Kind::Formula, Node::Prefixed(prefix, inner), place)
    }

    // Reads two formulas and the word between them, after the bracket that opens.
    // No plainer as one with `bracketed`: what reads a side would be a closure that joins this cycle of calls and is handed `self`.
    #[cycle(all_domain_formula_joined_prefixed_range_scope_some_some_named_start)]
    fn joined(&mut self, nesting: Nesting<'_, '_>, place: usize) -> Result<usize, Fault>
        ensures { answer result self.new nesting.exit.0.now ≡ from self.old nesting.entry.brackets.now (joined_of (formula_of nesting.entry.levels) place) }
    {
        let Nesting { brackets, levels } = nesting;
        open(brackets, place)?;
        let left = self.formula(Nesting { brackets, levels })?;
        let seen = infix_of(&self.tokens);
        let infix = self.sign(seen)?;
        let right = self.formula(Nesting { brackets, levels })?;
        let opened_at = self.close(brackets, Mark::CloseParen)?;
        self.sketch
            .put(Kind::Formula, Node::Joined(infix, left, right), opened_at)
    }

    // Reads the expression that is asked about.
    fn tested(&mut self, nesting: Nesting<'_, '_>, test: Test, place: usize) -> Result<usize, Fault>
        ensures { answer result self.new nesting.exit.0.now ≡ from self.old nesting.entry.brackets.now (tested_of (expression_of nesting.entry.levels) test place) }
    {
        let Nesting { brackets, levels } = nesting;
        let part = self.expression(Nesting { brackets, levels }, None)?;
        self.sketch
            .put(Kind::Formula, Node::Tested(test, part), place)
    }

    // Reads two expressions and the word or sign between them.
    fn compared(&mut self, nesting: Nesting<'_, '_>) -> Result<usize, Fault>
        ensures { answer result self.new nesting.exit.0.now ≡ from self.old nesting.entry.brackets.now (compared_of (expression_of nesting.entry.levels)) }
    {
        let Nesting { brackets, levels } = nesting;
        let place = self.tokens.place();
        let left = self.expression(Nesting { brackets, levels }, None)?;
        let seen = comparison_of(&self.tokens);
        let comparison = self.sign(seen)?;
        let arity = self.sketch.arity(left);
        let right = self.expression(Nesting { brackets, levels }, Some(Wish { arity, place }))?;
        self.sketch.put(
            Kind::Formula,
            Node::Compared(comparison, left, right),
            place,
        )
    }

    // Reads the variable, domain and body of a quantifier, after its word.
    #[cycle(all_domain_formula_joined_prefixed_range_scope_some_some_named_start)]
    fn all(&mut self, nesting: Nesting<'_, '_>, place: usize) -> Result<usize, Fault>
        ensures { answer result self.new nesting.exit.0.now ≡ from self.old nesting.entry.brackets.now (all_of (expression_of nesting.entry.levels) (formula_of nesting.entry.levels) place) }
    {
        let Nesting { brackets, levels } = nesting;
        let opening = read_opening(&mut self.tokens, Quantifier::All, place)?;
        self.domain(Nesting { brackets, levels }, opening)
    }

    // Reads a quantifier or an expression, after the word.
    #[cycle(all_domain_formula_joined_prefixed_range_scope_some_some_named_start)]
    fn some(&mut self, nesting: Nesting<'_, '_>, place: usize) -> Result<usize, Fault>
        ensures { answer result self.new nesting.exit.0.now ≡ from self.old nesting.entry.brackets.now (some_of (expression_of nesting.entry.levels) (formula_of nesting.entry.levels) after_name place) }
    {
        let Nesting { brackets, levels } = nesting;
        if self.tokens.name().is_none() {
            return self.tested(Nesting { brackets, levels }, Test::Some, place);
        }
        let opening = read_opening(&mut self.tokens, Quantifier::Some, place)?;
        self.some_named(Nesting { brackets, levels }, opening)
    }

    // Reads on after the name that follows "some".
    #[cycle(all_domain_formula_joined_prefixed_range_scope_some_some_named_start)]
    fn some_named(&mut self, nesting: Nesting<'_, '_>, opening: Opening) -> Result<usize, Fault>
        ensures { answer result self.new nesting.exit.0.now ≡ from self.old nesting.entry.brackets.now (some_named (expression_of nesting.entry.levels) (formula_of nesting.entry.levels) after_name opening.quantifier opening.place (spelling opening.variable.name) opening.variable.place) }
    {
        let Nesting { brackets, levels } = nesting;
        if self.tokens.is(Mark::Colon) {
            self.tokens.advance();
            self.sketch.bindable(opening.variable)?;
            return self.range(Nesting { brackets, levels }, opening);
        }
        let part = self.after_name(opening.variable)?;
        self.sketch.put(Kind::Formula, Node::Tested(Test::Some, part), opening.place)
    }

    // Reads the domain and the body of a quantifier, after the variable's name.
    #[cycle(all_domain_formula_joined_prefixed_range_scope_some_some_named_start)]
    fn domain(&mut self, nesting: Nesting<'_, '_>, opening: Opening) -> Result<usize, Fault>
        ensures { answer result self.new nesting.exit.0.now ≡ from self.old nesting.entry.brackets.now (domain_of (expression_of nesting.entry.levels) (formula_of nesting.entry.levels) opening.quantifier opening.place (spelling opening.variable.name) opening.variable.place) }
    {
        let Nesting { brackets, levels } = nesting;
        self.sketch.bindable(opening.variable)?;
        self.tokens.expect(Mark::Colon)?;
        self.range(Nesting { brackets, levels }, opening)
    }

    // Reads the domain and the body of a quantifier, after the colon.
    #[cycle(all_domain_formula_joined_prefixed_range_scope_some_some_named_start)]
    fn range(&mut self, nesting: Nesting<'_, '_>, opening: Opening) -> Result<usize, Fault>
        ensures { answer result self.new nesting.exit.0.now ≡ from self.old nesting.entry.brackets.now (range_of (expression_of nesting.entry.levels) (formula_of nesting.entry.levels) opening.quantifier opening.place (spelling opening.variable.name) opening.variable.place) }
    {
        let Nesting { brackets, levels } = nesting;
        let place = self.tokens.place();
        let domain = self.expression(Nesting { brackets, levels }, Some(Wish { arity: 1, place }))?;
        self.tokens.expect(Mark::Bar)?;
        self.scope(Nesting { brackets, levels }, opening, domain)
    }

    // Reads the body of a quantifier, in which its variable is known.
    #[cycle(all_domain_formula_joined_prefixed_range_scope_some_some_named_start)]
    fn scope(
        &mut self,
        nesting: Nesting<'_, '_>,
        opening: Opening,
        domain: usize,
    ) -> Result<usize, Fault>
        ensures { answer result self.new nesting.exit.0.now ≡ from self.old nesting.entry.brackets.now (scope_of (formula_of nesting.entry.levels) opening.quantifier opening.place (spelling opening.variable.name) opening.variable.place domain) }
    {
        let Nesting { brackets, levels } = nesting;
        let variable = self.sketch.bind(opening.variable)?;
        let body = self.formula(Nesting { brackets, levels })?;
        self.sketch.unbind();
        let node = Node::Quantified {
            quantifier: opening.quantifier,
            variable,
            domain,
            body,
        };
        self.sketch.put(Kind::Formula, node, opening.place)
    }
}

// Reads the variable of a quantifier, after its word.
fn read_opening(
    tokens: &mut Tokens<'_>,
    quantifier: Quantifier,
    place: usize,
) -> Result<Opening, Fault>
    ensures variable { MatchResult result (λ o. Some (spelling o.variable.name) ≡ name_of (head (cursor tokens.old))) (λ _. None ≡ name_of (head (cursor tokens.old))) }
    ensures at { IfOk result (λ o. o.variable.place ≡ place_of (head (cursor tokens.old))) }
    ensures word { IfOk result (λ o. (o.quantifier ≡ quantifier) × (o.place ≡ place)) }
    ensures fault { IfErr result (λ f. f ≡ refusal (head (cursor tokens.old))) }
    ensures rest { cursor tokens.new ≡ step (cursor tokens.old) }
{
    let variable = tokens.take_name()?;
    Ok(Opening {
        quantifier,
        place,
        variable,
    })
}
