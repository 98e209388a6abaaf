ghost use Rattle.std.specs.Prelude.{◌≡◌, Some};
ghost use Rattle.names.specs.Names.{spelling};
ghost use Rattle.relations.specs.Relations.{IsArityOf, arity_number, mutability_word};

use super::{Arity, Atom, Mutability, NotAnArity};
use names::{Name, Named};
use std::fmt;

// The arity of so many atoms: one or two.
impl TryFrom<usize> for Arity {
    type Error = NotAnArity;

    ghost try_from_gives = { IsArityOf };

    fn try_from(n: usize) -> Result<Arity, NotAnArity> {
        match n {
            1 => Ok(Arity::One),
            2 => Ok(Arity::Two),
            _ => Err(NotAnArity),
        }
    }
}

impl Arity {
    // How many atoms a tuple has.
    pub fn number(self) -> usize
        ensures { result ≡ arity_number self }
    {
        match self {
            Arity::One => 1,
            Arity::Two => 2,
        }
    }
}

impl fmt::Display for Mutability {
    ghost output = { λ m. Some (mutability_word m) };

    fn fmt<W: fmt::Write>(&self, f: &mut fmt::Formatter<W>) -> fmt::Result {
        f.write_str(match self {
            Mutability::Fixed => "fixed",
            Mutability::Mutable => "mutable",
        })
    }
}

impl Atom {
    // The atom of a name.
    pub fn new(name: Name) -> Atom
        ensures { spelling result.name ≡ spelling name }
    {
        Atom { name }
    }
}

impl Named for Atom {
    ghost named = { λ a. spelling a.name };

    fn name(&self) -> &[u8] {
        self.name.as_bytes()
    }
}
