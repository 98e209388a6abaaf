ghost use Rattle.std.specs.Prelude.{◌<◌, length};
ghost use Rattle.cases.specs.Lines.{Cut};

// What stands before the first `sign`, and what stands after it; all and nothing where there is none.
pub fn cut(text: &[u8], sign: u8) -> (&[u8], &[u8])
    ensures cut { Cut text.now sign result.0.now result.1.now }
    ensures shorter { 0 < length text.now → length result.1.now < length text.now }
{
    match text.iter().position(|b| *b == sign) {
        Some(at) => (&text[..at], &text[at + 1..]),
        None => (text, &[]),
    }
}
