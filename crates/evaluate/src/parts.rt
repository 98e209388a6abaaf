ghost use Rattle.std.specs.Prelude.{◌≡◌, ◌<◌, ◌≤◌, Decides, true, length, IfSome, slice_index, slice_set};
ghost use Rattle.lasso.specs.Lassos.{following};
ghost use Rattle.relations.specs.Declarations.{arities};
ghost use Rattle.relations.specs.Relations.{arity_number};
ghost use Rattle.problem.specs.Sorts.{node_at, bound_at, sort_arity, sort_bound, is_expression};
ghost use Rattle.problem.specs.Problems.{nodes_in, relations_in, sorts_in};
ghost use Rattle.evaluate.specs.Known.{ClosedIs};

use lasso::{Shape, State};
use problem::{Node, Problem, Sort};
use relations::Arity;

// A node of a problem.
pub(crate) fn node_at(problem: &Problem, node: usize) -> Node
    requires { node < length (nodes_in problem.now) }
    ensures { node_at (nodes_in problem.now) node ≡ result }
{
    problem.parts()[node].node
}

// The arity of a relation of a problem.
pub(crate) fn arity_of(problem: &Problem, relation: usize) -> Arity
    requires { relation < length (relations_in problem.now) }
    ensures { arity_number result ≡ slice_index (arities (relations_in problem.now)) relation }
{
    problem.relations()[relation].arity()
}

// Whether a node uses no variable.
pub(crate) fn is_closed(problem: &Problem, node: usize) -> bool
    ensures { Decides result (bound_at (sorts_in problem.now) node ≡ 0) }
{
    bound_of(problem, node) == 0
}

// How many of the variables bound around it a node may use; 0 beyond the last.
#[tactic(auto, using(crate::proofs::Bounds::bound_within, crate::proofs::Bounds::bound_beyond))]
fn bound_of(problem: &Problem, node: usize) -> usize
    ensures { result ≡ bound_at (sorts_in problem.now) node }
{
    problem.sort(node).map_or(0, |sort| sort.bound())
}

// An expression that uses no variable: its node, and how many atoms its tuples have.
#[derive(Clone, Copy)]
pub(crate) struct Closed {
    pub(crate) node: usize,
    pub(crate) arity: usize,
}

// What a node is, if it is an expression that uses no variable.
pub(crate) fn closed_expression(problem: &Problem, node: usize) -> Option<Closed>
    requires { node < length (nodes_in problem.now) }
    ensures { IfSome result (λ closed. (closed.node ≡ node) × ClosedIs problem.now closed) }
{
    let arity = arity_if_closed(problem.sort(node)?)?;
    Some(Closed { node, arity })
}

// The arity of what is an expression that uses no variable: 1 to 3.
fn arity_if_closed(sort: Sort) -> Option<usize>
    ensures { IfSome result (λ a. (is_expression sort ≡ true) × (sort_bound sort ≡ 0) × (a ≡ sort_arity sort) × (a ≤ 3)) }
{
    match sort {
        Sort::Expression {
            arity: arity @ 1..=3,
            bound: 0,
        } => Some(arity),
        _ => None,
    }
}

// Whether an expression that uses no variable, and is no domain, is a part of a node that uses one: then it is one of two parts, since
// the other uses it.
pub(crate) fn is_beside_variable(problem: &Problem, node: usize) -> bool {
    problem.parts().iter().any(|whole| whole.sort.bound() > 0 && is_one_of_two(node, whole.node))
}

// Whether a node is one of the two expressions that another is made of.
fn is_one_of_two(node: usize, whole: Node) -> bool {
    matches!(whole, Node::Combined(_, left, right) | Node::Compared(_, left, right) if left == node || right == node)
}

// The atom that a variable is bound to; 0 where there is no such variable.
pub(crate) fn atom_of(variables: &[usize; 4], variable: usize) -> usize
    ensures { result ≡ slice_index variables.now variable }
{
    variables.get(variable).copied().unwrap_or(0)
}

// The atoms of the variables, with one more bound to an atom.
pub(crate) fn bound(variables: &[usize; 4], variable: usize, atom: usize) -> [usize; 4]
    ensures { result ≡ slice_set variables.now variable atom }
{
    // By index: std says of a slice's `get_mut` what is there, and nothing of what the slice is after a write.
    let mut inner = *variables;
    if variable < inner.len() {
        inner[variable] = atom;
    }
    inner
}

// The state that follows a state of a lasso.
pub(crate) fn next_state(shape: Shape, state: State) -> State
    ensures { state.0 < shape.states → result.0 ≡ following shape.states shape.loop_start state.0 }
{
    let next = State(state.0.saturating_add(1));
    if next.0 == shape.states() {
        shape.loop_start()
    } else {
        next
    }
}
