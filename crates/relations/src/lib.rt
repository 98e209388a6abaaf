//! Relations with bounds, the declarations of atoms and relations, and what declarations and a horizon keep together.
#![tactic(auto)]

mod declarations;
mod free;
mod relation;
mod signature;
mod tuples;

pub use declarations::{Declarations, MOST_ATOMS, MOST_RELATIONS, NoRoom};
pub use relation::{Arity, Atom, Mutability, NotAnArity, Relation};
pub use signature::{MOST_FREE, MOST_HORIZON, Signature, Unfit};
pub use tuples::{MOST_TUPLES, TupleSet};
