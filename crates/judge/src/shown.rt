ghost use Rattle.std.specs.Prelude.{◌≡◌};
ghost use Rattle.judge.specs.Shown.{shown_as};

use std::fmt;

// Bytes on the screen, a character each.
#[derive(Drop)]
pub struct Shown<'a> {
    pub bytes: &'a [u8],
}

impl fmt::Display for Shown<'_> {
    fn fmt<W: fmt::Write>(&self, f: &mut fmt::Formatter<W>) -> fmt::Result {
        for b in self.bytes {
            f.write_char(sign_for(*b))?;
        }
        Ok(())
    }
}

// The character that stands for a byte.
pub fn sign_for(b: u8) -> char
    ensures { result ≡ shown_as b }
{
    match b {
        b' '..=b'~' => char::from(b),
        b'\t' | b'\r' => ' ',
        _ => '?',
    }
}
