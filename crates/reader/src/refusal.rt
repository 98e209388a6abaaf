ghost use Rattle.std.specs.Prelude.{◌≡◌};
ghost use Rattle.reader.specs.declared.refusal.Refusal.TheVariants.{Memory as memory, Fault as fault};

use faults::Fault;
use std::alloc::AllocError;

// Why a text was not read: there is no memory for a problem, or the text is refused.
#[derive(Clone, Copy)]
pub enum Refusal {
    Memory(AllocError),
    Fault(Fault),
}

impl From<AllocError> for Refusal {
    ghost from_gives = { λ e r. r ≡ memory e };

    fn from(wanting: AllocError) -> Refusal {
        Refusal::Memory(wanting)
    }
}

impl From<Fault> for Refusal {
    ghost from_gives = { λ f r. r ≡ fault f };

    fn from(fault: Fault) -> Refusal {
        Refusal::Fault(fault)
    }
}
