ghost use Rattle.std.specs.Prelude.{◌≡◌, ℕ, ◌+◌, ◌*◌, ◌%◌, ◌<◌, List, length, IfSome, IfOk, MatchOption};
ghost use Rattle.cases.specs.Hex.{digit_of, both, Hex as IsHex};

use std::alloc::{AllocError, Global};

// The value of a hexadecimal digit.
fn digit(b: u8) -> Option<u8>
    ensures value { result ≡ digit_of b }
    ensures small { IfSome result (λ d. d < 16) }
{
    Some(char::from(b).to_digit(16)? as u8)
}

// The byte that two hexadecimal digits are.
fn byte(high: u8, low: u8) -> Option<u8>
    ensures { result ≡ both (digit_of high) (digit_of low) }
{
    Some(digit(high)? * 16 + digit(low)?)
}

// The bytes of a text in hexadecimal, two digits each; none where it is no such text.
pub fn bytes_of(text: &[u8], heap: Global) -> Result<Option<Vec<u8>>, AllocError>
    ensures { IfOk result (λ o. MatchOption o ((bytes : List ℕ) → IsHex text.now bytes → ⊥) (λ v. IsHex text.now v.items)) }
{
    if text.len() % 2 != 0 {
        return Ok(None);
    }
    pairs_of(text, heap)
}

// The bytes of as many pairs of digits.
fn pairs_of(text: &[u8], heap: Global) -> Result<Option<Vec<u8>>, AllocError>
    requires { length text.now % 2 ≡ 0 }
    ensures { IfOk result (λ o. MatchOption o ((bytes : List ℕ) → IsHex text.now bytes → ⊥) (λ v. IsHex text.now v.items)) }
{
    let mut bytes = Vec::new(heap);
    let mut rest = text;
    'pairs: while let [high, low, after @ ..] = rest {
        match byte(*high, *low) {
            Some(b) => bytes.push(b)?,
            None => return Ok(None),
        }
        rest = after;
    }
    Ok(Some(bytes))
}
