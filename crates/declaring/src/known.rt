ghost use Rattle.std.specs.Prelude.{◌≡◌, ◌<◌, length, Ok, Err, IfOk, MatchResult};
ghost use Rattle.names.specs.Names.{spelling};
ghost use Rattle.tokens.specs.Outcomes.{changes};
ghost use Rattle.declaring.specs.Known.{known, framed, unknown, atomed, nameable as nameable_of, related, arity_given, horizon_given};
ghost use Rattle.relations.specs.Relations.{declared_of};
ghost use Rattle.relations.specs.Declarations.{relations_of};

use faults::Fault;
use relations::{Arity, Declarations, MOST_RELATIONS, Relation, Signature, Unfit};
use tokens::{PlacedName, PlacedNumber};

// Whether a name is new: that of no atom and of no relation.
#[tactic(auto, unfolding(crate::specs::Known::known))]
fn unknown(declared: &Declarations, placed: PlacedName) -> Result<(), Fault>
    ensures { result ≡ unknown (spelling placed.name) placed.place (known declared.now) }
{
    let PlacedName { name, place } = placed;
    if declared.declares(name) {
        return Err(Fault::NameKnown { place });
    }
    Ok(())
}

// Declares an atom.
#[tactic(auto, unfolding(crate::specs::Known::known, crate::specs::Known::atomed))]
pub fn declare_atom(declared: &mut Declarations, placed: PlacedName) -> Result<(), Fault>
    ensures { changes result (known declared.new) ≡ atomed (spelling placed.name) placed.place (known declared.old) }
{
    unknown(declared, placed)?;
    let PlacedName { name, place } = placed;
    declared
        .add_atom(name)
        .map_err(|_| Fault::OverLimit { place })
}

// Whether a relation may be declared with a name.
#[tactic(auto, unfolding(crate::specs::Known::known, crate::specs::Known::nameable))]
pub fn nameable(declared: &Declarations, placed: PlacedName) -> Result<(), Fault>
    ensures value { result ≡ nameable_of (spelling placed.name) placed.place (known declared.now) }
    ensures room { IfOk result (λ _. length (relations_of declared.now) < 12) }
{
    unknown(declared, placed)?;
    if declared.relation_count() >= MOST_RELATIONS {
        return Err(Fault::OverLimit {
            place: placed.place,
        });
    }
    Ok(())
}

// Declares a relation.
#[tactic(auto, unfolding(crate::specs::Known::known, crate::specs::Known::related))]
pub(crate) fn declare_relation(declared: &mut Declarations, relation: Relation)
    requires { length (relations_of declared.old) < 12 }
    ensures { known declared.new ≡ related (declared_of relation) (known declared.old) }
{
    declared.add_relation(relation).unwrap();
}

// A number as an arity.
#[tactic(auto, unfolding(crate::specs::Known::arity_given))]
pub fn arity_given(placed: PlacedNumber) -> Result<Arity, Fault>
    ensures { result ≡ arity_given placed.number placed.place }
{
    let PlacedNumber { number, place } = placed;
    Arity::try_from(number).map_err(|_| Fault::OverLimit { place })
}

// What is declared with a horizon.
#[tactic(auto, unfolding(crate::specs::Known::known, crate::specs::Known::framed, crate::specs::Known::horizon_given))]
pub fn with_horizon(declared: Declarations, placed: PlacedNumber) -> Result<Signature, Fault>
    ensures { MatchResult result (λ s. horizon_given (known declared) placed.number placed.place ≡ Ok (framed s)) (λ f. horizon_given (known declared) placed.number placed.place ≡ Err f) }
{
    let PlacedNumber { number, place } = placed;
    Signature::new(declared, number).map_err(|unfit| match unfit {
        Unfit::Limit => Fault::OverLimit { place },
        Unfit::FreePlaces => Fault::TooManyFreePlaces { place },
    })
}
