ghost use Rattle.std.specs.Prelude.{◌≤◌};
ghost use Rattle.tokens.specs.Digits.{digits_in};

use super::rest::Rest;
use super::token::Spot;
use faults::Fault;

mod calls;

// The tokens of a text that are not taken yet, the next one looked at; at the end there is none.
#[derive(Drop)]
pub struct Tokens<'a> {
    rest: Rest<'a>,
    next: Option<Result<Spot<'a>, Fault>>,
    ghost brief: { digits_in next ≤ 3 },
}
