ghost use Rattle.std.specs.Prelude.{◌≡◌, ◌<◌, ◌≤◌, [], length, Some, None, IfOk, IfErr, IfSome, MatchResult, ◌≢◌};
ghost use Rattle.std.specs.Option.{option_map, ok_or};
ghost use Rattle.names.specs.Names.{spelling};
ghost use Rattle.tokens.specs.Items.{items, ahead, seen, place_of, refusal, token_of, name_of, number_of, is_mark, mark_of as mark_of_item, bytes_left, view, mark_in};
ghost use Rattle.tokens.specs.Cursors.{ends_at, cursor, cursor_of, head, step, expected};
ghost use Rattle.tokens.specs.Digits.{digits};
ghost use Rattle.tokens.specs.Lexing.{value_of};

use super::super::lexer::next_token;
use super::super::mark::Mark;
use super::super::rest::Rest;
use super::super::token::{PlacedName, PlacedNumber, Sign, Spot, Token, Word};
use super::Tokens;
use faults::Fault;
use names::Name;

impl<'a> Tokens<'a> {
    // The tokens of a text, from its start.
    #[tactic(auto, using(crate::proofs::Moving::cursor_start))]
    pub fn new(text: &'a [u8]) -> Tokens<'a>
        ensures { cursor result ≡ cursor_of text.now }
    {
        let rest = Rest {
            bytes: text,
            place: 0,
        };
        tokens_from(rest)
    }

    // The next token, or the fault of the bytes there; at the end of the text its end.
    #[tactic(auto, using(crate::proofs::Moving::peeked))]
    pub fn peek(&self) -> Result<Spot<'a>, Fault>
        ensures value { seen result ≡ head (cursor self.now) }
        ensures brief { IfOk result (λ s. digits s.token ≤ 3) }
    {
        self.next.unwrap_or(Ok(Spot {
            token: Token::End,
            place: self.rest.end(),
        }))
    }

    // The next token; none where the bytes there are at fault.
    pub fn token(&self) -> Option<Token<'a>>
        ensures value { option_map view result ≡ token_of (head (cursor self.now)) }
        ensures brief { IfSome result (λ t. digits t ≤ 3) }
    {
        self.peek().ok().map(|spot| spot.token)
    }

    // Where the next token begins.
    pub fn place(&self) -> usize
        ensures { result ≡ place_of (head (cursor self.now)) }
    {
        match self.peek() {
            Ok(spot) => spot.place,
            Err(fault) => fault.place(),
        }
    }

    // Whether the next token is that mark.
    pub fn is(&self, mark: Mark) -> bool
        ensures { result ≡ is_mark mark (head (cursor self.now)) }
    {
        self.mark() == Some(mark)
    }

    // The next token, if it is a name.
    pub fn name(&self) -> Option<Name>
        ensures { option_map spelling result ≡ name_of (head (cursor self.now)) }
    {
        match self.token()? {
            Token::Name(name) => Some(Name::new(name)),
            _ => None,
        }
    }

    // The value of the next token, if it is a number.
    pub fn number(&self) -> Option<usize>
        ensures { result ≡ number_of (head (cursor self.now)) }
    {
        match self.token()? {
            Token::Number(digits) => Some(value(digits)),
            _ => None,
        }
    }

    // Takes the next token; at the end nothing alters.
    #[tactic(auto, using(crate::proofs::Moving::stayed, crate::proofs::Moving::stepped, crate::proofs::Moving::end_of, crate::proofs::Moving::left_more))]
    pub fn advance(&mut self)
        ensures rest { cursor self.new ≡ step (cursor self.old) }
        ensures shorter { (ahead self.old ≢ []) → bytes_left self.new < bytes_left self.old }
    {
        if self.next.is_none() {
            return;
        }
        *self = tokens_from(self.rest);
    }

    // Takes the next token, which cannot stand there, and says why.
    pub fn refuse(&mut self) -> Fault
        ensures value { result ≡ refusal (head (cursor self.old)) }
        ensures rest { cursor self.new ≡ step (cursor self.old) }
        ensures shorter { (ahead self.old ≢ []) → bytes_left self.new < bytes_left self.old }
    {
        let fault = match self.peek() {
            Ok(spot) => Fault::NotAllowed { place: spot.place },
            Err(fault) => fault,
        };
        self.advance();
        fault
    }

    // Takes the next token and hands on what was seen in it; where nothing was, refuses it.
    pub fn take<T>(&mut self, seen: Option<T>) -> Result<T, Fault>
        ensures value { result ≡ ok_or seen (refusal (head (cursor self.old))) }
        ensures rest { cursor self.new ≡ step (cursor self.old) }
        ensures shorter { (ahead self.old ≢ []) → bytes_left self.new < bytes_left self.old }
    {
        match seen {
            Some(kind) => {
                self.advance();
                Ok(kind)
            }
            None => Err(self.refuse()),
        }
    }

    // Takes the next token, which has to be a name, and answers the name with its place.
    pub fn take_name(&mut self) -> Result<PlacedName, Fault>
        ensures name { MatchResult result (λ n. Some (spelling n.name) ≡ name_of (head (cursor self.old))) (λ _. None ≡ name_of (head (cursor self.old))) }
        ensures place { IfOk result (λ n. n.place ≡ place_of (head (cursor self.old))) }
        ensures fault { IfErr result (λ f. f ≡ refusal (head (cursor self.old))) }
        ensures rest { cursor self.new ≡ step (cursor self.old) }
        ensures shorter { (ahead self.old ≢ []) → bytes_left self.new < bytes_left self.old }
    {
        let place = self.place();
        let name = self.take(self.name())?;
        Ok(PlacedName { name, place })
    }

    // Takes the next token, which has to be a number, and answers its value with its place.
    // No plainer as one: what the two share is the place and `take`, and each says of its own kind what stands there.
    pub fn take_number(&mut self) -> Result<PlacedNumber, Fault>
        ensures number { MatchResult result (λ n. Some n.number ≡ number_of (head (cursor self.old))) (λ _. None ≡ number_of (head (cursor self.old))) }
        ensures place { IfOk result (λ n. n.place ≡ place_of (head (cursor self.old))) }
        ensures fault { IfErr result (λ f. f ≡ refusal (head (cursor self.old))) }
        ensures rest { cursor self.new ≡ step (cursor self.old) }
        ensures shorter { (ahead self.old ≢ []) → bytes_left self.new < bytes_left self.old }
    {
        let place = self.place();
        let number = self.take(self.number())?;
        Ok(PlacedNumber { number, place })
    }

    // Takes the next token, which has to be that mark, and answers its place.
    #[tactic(auto, unfolding(crate::specs::Cursors::expected))]
    pub fn expect(&mut self, mark: Mark) -> Result<usize, Fault>
        ensures value { result ≡ expected mark (head (cursor self.old)) }
        ensures rest { cursor self.new ≡ step (cursor self.old) }
        ensures shorter { (ahead self.old ≢ []) → bytes_left self.new < bytes_left self.old }
    {
        self.take(self.is(mark).then_some(self.place()))
    }

    // The mark that the next token is, if it is one.
    fn mark(&self) -> Option<Mark>
        ensures { result ≡ mark_of_item (head (cursor self.now)) }
    {
        mark_of(self.token()?)
    }

    // How many bytes are not taken yet, the next token counted as one; at least as many as items are ahead.
    #[tactic(auto, using(crate::proofs::Moving::ahead_le_left), unfolding(crate::specs::Items::bytes_left))]
    pub fn left(&self) -> usize
        ensures value { result ≡ bytes_left self.now }
        ensures bound { length (ahead self.now) ≤ result }
    {
        self.next.map_or(0, |_| self.rest.bytes.len() + 1)
    }
}

// The tokens of what is left of a text.
#[tactic(auto, unfolding(crate::specs::Items::ahead, crate::specs::Items::bytes_left))]
fn tokens_from<'a>(rest: Rest<'a>) -> Tokens<'a>
    ensures items { ahead result ≡ items rest.entry.bytes.now rest.entry.place }
    ensures end { ends_at result.rest ≡ ends_at rest.entry }
    ensures left { bytes_left result ≤ length rest.entry.bytes.now }
{
    let cut = next_token(rest);
    Tokens {
        rest: cut.rest,
        next: cut.next,
    }
}

// The mark that a token is, where it is one.
fn mark_of(token: Token<'_>) -> Option<Mark>
    ensures { result ≡ mark_in (view token.entry) }
{
    let mark = match token {
        Token::Sign(Sign::Semicolon) => Mark::Semicolon,
        Token::Sign(Sign::Colon) => Mark::Colon,
        Token::Sign(Sign::OpenBrace) => Mark::OpenBrace,
        Token::Sign(Sign::CloseBrace) => Mark::CloseBrace,
        Token::Sign(Sign::OpenParen) => Mark::OpenParen,
        Token::Sign(Sign::CloseParen) => Mark::CloseParen,
        Token::Sign(Sign::CloseBracket) => Mark::CloseBracket,
        Token::Sign(Sign::Bar) => Mark::Bar,
        Token::Sign(Sign::Prime) => Mark::Prime,
        Token::Word(Word::Atoms, _) => Mark::Atoms,
        Token::Word(Word::Horizon, _) => Mark::Horizon,
        Token::Word(Word::Formula, _) => Mark::Formula,
        Token::End => Mark::End,
        _ => return None,
    };
    Some(mark)
}

// The value of a few digits (tried: a fold; its closure may be called only where no sum is too large, which depends on how far it has
// come, so the goal `fold-requires-clause-callable` was left).
fn value(digits: &[u8]) -> usize
    requires { length digits.now ≤ 3 }
    ensures { result ≡ value_of digits.now }
{
    let mut value = 0;
    for b in digits {
        value = value * 10 + usize::from(b.saturating_sub(b'0'));
    }
    value
}
