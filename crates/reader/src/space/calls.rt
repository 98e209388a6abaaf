ghost use Rattle.std.specs.Prelude.{◌≡◌};
ghost use Rattle.declaring.specs.Known.{known};
ghost use Rattle.reader.specs.Reading.{nothing_known};

use super::Space;
use formulas::Scope;
use problem::Room;
use relations::Declarations;
use std::alloc::{AllocError, Global};

impl Space {
    // Asks for all memory that reading a problem takes.
    pub fn new(heap: Global) -> Result<Space, AllocError> {
        let declared = Declarations::new(heap)?;
        let room = Room::new(heap)?;
        let scope = Scope::new(heap)?;
        Ok(Space {
            declared,
            room,
            scope,
        })
    }

    // The declarations, of which there is none, and what else there is.
    #[tactic(auto, using(crate::proofs::Starting::nothing_is_known))]
    pub(crate) fn parts(self) -> (Declarations, Room, Scope)
        ensures { known result.0 ≡ nothing_known }
    {
        (self.declared, self.room, self.scope)
    }
}
