ghost use Rattle.std.specs.Prelude.{◌≡◌, nat_lt, true, false, IfOk, IfErr};
ghost use Rattle.faults.specs.declared.Fault.TheVariants.{OverLimit};
ghost use Rattle.names.specs.Names.{spelling};
ghost use Rattle.problem.specs.Sorts.{most_variables};
ghost use Rattle.formulas.specs.Bodies.{body, begun};
ghost use Rattle.tokens.specs.Outcomes.{changes};
ghost use Rattle.formulas.specs.Outcomes.{counted, putting, misfitting, arity_in, resolved, leafed, naming, meant_constant, known, bindable, bindable_by, bound as binding_of, unbound};

use super::super::wish::{Wishes, ask};
use super::{Scope, Sketch, Variable};
use faults::Fault;
use names::{Name, Named, lookup};
use problem::{Constant, Draft, Kind, MOST_PARTS, MOST_VARIABLES, Misfit, Node};
use std::alloc::{AllocError, Global};
use tokens::PlacedName;

impl Named for Variable {
    ghost named = { λ v. spelling v.name };

    fn name(&self) -> &[u8] {
        self.name.as_bytes()
    }
}

// The fault of a node that does not fit, whose first token is at a place.
fn fault_of(misfit: Misfit, place: usize) -> Fault
    ensures { result ≡ misfitting misfit place }
{
    match misfit {
        Misfit::Arity => Fault::ArityMismatch { place },
        Misfit::Past | Misfit::Room => Fault::OverLimit { place },
    }
}

// What a name in an expression stands for, and its arity.
#[derive(Clone, Copy)]
pub struct Meant {
    pub node: Node,
    pub arity: usize,
}

impl Scope {
    // Asks for the memory of all variables that may be bound at once.
    pub fn new(heap: Global) -> Result<Scope, AllocError> {
        let variables = Vec::with_capacity(heap, MOST_VARIABLES)?;
        Ok(Scope { variables })
    }
}

impl Sketch {
    // Nothing is read yet over a draft.
    #[tactic(auto, unfolding(crate::specs::Bodies::body, crate::specs::Bodies::begun))]
    pub fn new(draft: Draft, scope: Scope) -> Sketch
        ensures { body result ≡ begun draft }
    {
        Sketch {
            draft,
            scope: scope.variables,
            parts: 0,
        }
    }

    // The nodes that were read.
    pub fn into_draft(self) -> Draft
        ensures { result ≡ self.draft }
    {
        self.draft
    }

    // The token at a place stands for a part, if there may be one more.
    #[tactic(auto, using(std::proofs::lemmas::Bool::Decides::nat_tests), unfolding(crate::specs::Bodies::body, crate::specs::Outcomes::counted))]
    pub fn count(&mut self, place: usize) -> Result<(), Fault>
        ensures { changes result (body self.new) ≡ counted place (body self.old) }
    {
        if self.parts >= MOST_PARTS {
            return Err(Fault::OverLimit { place });
        }
        self.parts += 1;
        Ok(())
    }

    // Puts a node after the others, if its parts fit; if not, it is refused at the place of its first token.
    pub fn put(&mut self, kind: Kind, node: Node, place: usize) -> Result<usize, Fault>
        ensures { changes result (body self.new) ≡ putting kind node place (body self.old) }
    {
        let bound = self.scope.len();
        self.draft
            .put(kind, node, bound)
            .map_err(|misfit| fault_of(misfit, place))
    }

    // The arity of a node.
    #[tactic(auto, unfolding(crate::specs::Bodies::body, crate::specs::Outcomes::arity_in))]
    pub fn arity(&self, node: usize) -> usize
        ensures { result ≡ arity_in node (body self.now) }
    {
        self.draft.arity(node)
    }

    // What a name in an expression stands for.
    fn resolve(&self, placed: PlacedName) -> Result<Meant, Fault>
        ensures { result ≡ resolved (spelling placed.name) placed.place (body self.now) }
    {
        let PlacedName { name, place } = placed;
        if let Some(variable) = lookup(self.scope.as_slice(), name.as_bytes()) {
            return Ok(Meant {
                node: Node::Variable(variable),
                arity: 1,
            });
        }
        let relations = self.draft.signature().declared().relations();
        let relation = lookup(relations, name.as_bytes()).ok_or(Fault::NameUnknown { place })?;
        Ok(Meant {
            node: Node::Relation(relation),
            arity: relations[relation].arity().number(),
        })
    }

    // Puts a name or constant, which is a whole expression; its arity is judged before the part is counted.
    pub fn leaf(&mut self, meant: Meant, place: usize, wishes: Wishes) -> Result<usize, Fault>
        ensures { changes result (body self.new) ≡ leafed meant place wishes.under wishes.whole (body self.old) }
    {
        ask(wishes.under, meant.arity)?;
        ask(wishes.whole, meant.arity)?;
        self.count(place)?;
        self.put(Kind::Expression, meant.node, place)
    }

    // Puts what a name stands for.
    pub fn named(&mut self, placed: PlacedName, wishes: Wishes) -> Result<usize, Fault>
        ensures { changes result (body self.new) ≡ naming (spelling placed.name) placed.place wishes.under wishes.whole (body self.old) }
    {
        let meant = self.resolve(placed)?;
        self.leaf(meant, placed.place, wishes)
    }

    // Puts a constant.
    pub fn constant(
        &mut self,
        constant: Constant,
        place: usize,
        wishes: Wishes,
    ) -> Result<usize, Fault>
        ensures { changes result (body self.new) ≡ leafed (meant_constant constant) place wishes.under wishes.whole (body self.old) }
    {
        let meant = Meant {
            node: Node::Constant(constant),
            arity: constant.arity(),
        };
        self.leaf(meant, place, wishes)
    }

    // Whether a name is that of an atom, a relation or a variable in scope.
    #[tactic(auto, using(crate::proofs::Knowing::known_from), unfolding(crate::specs::Bodies::body))]
    fn knows(&self, name: Name) -> bool
        ensures { result ≡ known (spelling name) (body self.now) }
    {
        self.draft.signature().declared().declares(name)
            || lookup(self.scope.as_slice(), name.as_bytes()).is_some()
    }

    // Whether a name may be bound: it is not known, and there may be one variable more.
    #[tactic(auto, unfolding(crate::specs::Bodies::body, crate::specs::Outcomes::bindable))]
    pub fn bindable(&self, placed: PlacedName) -> Result<(), Fault>
        ensures { result ≡ bindable (spelling placed.name) placed.place (body self.now) }
    {
        judge_name(self.knows(placed.name), self.scope.len(), placed.place)
    }

    // Brings a variable into scope, and answers its number.
    #[tactic(auto, using(crate::proofs::Steps::binding, crate::proofs::Steps::not_binding))]
    pub fn bind(&mut self, placed: PlacedName) -> Result<usize, Fault>
        ensures { changes result (body self.new) ≡ binding_of (spelling placed.name) placed.place (body self.old) }
    {
        let PlacedName { name, place } = placed;
        let variable = self.scope.len();
        room_for_variable(variable, place)?;
        self.scope.push_reserved(Variable { name });
        Ok(variable)
    }

    // The latest variable goes out of scope.
    #[tactic(auto, using(crate::proofs::Steps::unbinding))]
    pub fn unbind(&mut self)
        ensures { body self.new ≡ unbound (body self.old) }
    {
        let _ = self.scope.pop();
    }
}

// Whether there may be one variable more than are bound.
fn room_for_variable(bound: usize, place: usize) -> Result<(), Fault>
    ensures room { IfOk result (λ _. nat_lt bound most_variables ≡ true) }
    ensures full { IfErr result (λ _. nat_lt bound most_variables ≡ false) }
    ensures fault { IfErr result (λ f. f ≡ OverLimit place) }
{
    if bound >= MOST_VARIABLES {
        return Err(Fault::OverLimit { place });
    }
    Ok(())
}

// Whether a name may be bound, by whether it is known, and by how many variables are bound.
fn judge_name(known: bool, bound: usize, place: usize) -> Result<(), Fault>
    ensures { result ≡ bindable_by known bound place }
{
    if known {
        return Err(Fault::NameKnown { place });
    }
    room_for_variable(bound, place)
}
