ghost use Rattle.std.specs.Prelude.{◌≡◌, ◌+◌, ◌≤◌, None, MatchResult, map};
ghost use Rattle.std.specs.List.{slice_get};
ghost use Rattle.problem.specs.declared.sort.Misfit.TheVariants.{Arity};
ghost use Rattle.relations.specs.Relations.{declared_of};
ghost use Rattle.relations.specs.Declarations.{arities};
ghost use Rattle.problem.specs.Sorts.{part_sort, expression as expression_of, formula as formula_of, shallow as shallow_of, prefixed as prefixed_of, prefix_past, joined as joined_of, infix_past, combined as combined_of, compared as compared_of, quantified as quantified_of, relation_sort, variable_sort, turned_sort, next_sort, tested_sort, judge as judge_of, wanted as wanted_of};

use super::node::{Infix, Node, Operator, Prefix};
use super::part::Part;
use super::sort::{Kind, MOST_PAST, MOST_VARIABLES, Misfit, Sort};
use relations::Relation;

// What a node is, given the relations and the parts before it.
pub(crate) fn judge(node: Node, relations: &[Relation], parts: &[Part]) -> Result<Sort, Misfit>
    ensures { result ≡ judge_of (arities (map declared_of relations.now)) (map part_sort parts.now) node }
{
    match node {
        Node::Relation(r) => relation_sort(relations, r),
        Node::Variable(v) => variable_sort(v),
        Node::Constant(c) => Ok(expression(c.arity(), 0)),
        Node::Turned(_, a) => turned(sort_at(parts, a)?),
        Node::Next(a) => later(sort_at(parts, a)?),
        Node::Combined(o, a, b) => combined(o, sort_at(parts, a)?, sort_at(parts, b)?),
        Node::Tested(_, a) => tested(sort_at(parts, a)?),
        Node::Compared(_, a, b) => compared(sort_at(parts, a)?, sort_at(parts, b)?),
        Node::Prefixed(p, a) => prefixed(p, sort_at(parts, a)?),
        Node::Joined(i, a, b) => joined(i, sort_at(parts, a)?, sort_at(parts, b)?),
        Node::Quantified {
            variable,
            domain,
            body,
            ..
        } => quantified(variable, sort_at(parts, domain)?, sort_at(parts, body)?),
    }
}

// The sort, if it is of a kind and uses at most so many variables.
pub(crate) fn wanted(kind: Kind, bound: usize, judged: Result<Sort, Misfit>) -> Result<Sort, Misfit>
    ensures { result ≡ wanted_of kind bound judged }
{
    let sort = judged?;
    if kind.admits(sort) && sort.bound() <= bound {
        return Ok(sort);
    }
    Err(Misfit::Arity)
}

// An expression of an arity, under so many variables.
fn expression(arity: usize, bound: usize) -> Sort
    ensures { result ≡ expression_of arity bound }
{
    Sort::Expression { arity, bound }
}

// What an earlier part is.
fn sort_at(parts: &[Part], at: usize) -> Result<Sort, Misfit>
    ensures { MatchResult result (λ s. slice_get (map part_sort parts.now) at ≡ Some s) (λ m. (slice_get (map part_sort parts.now) at ≡ None) × (m ≡ Arity)) }
{
    parts.get(at).map(|part| part.sort).ok_or(Misfit::Arity)
}

#[tactic(auto, using(crate::proofs::Nths::arity_got, crate::proofs::Nths::no_arity))]
fn relation_sort(relations: &[Relation], at: usize) -> Result<Sort, Misfit>
    ensures { result ≡ relation_sort (slice_get (arities (map declared_of relations.now)) at) }
{
    let relation = relations.get(at).ok_or(Misfit::Arity)?;
    Ok(expression(relation.arity().number(), 0))
}

fn variable_sort(v: usize) -> Result<Sort, Misfit>
    ensures { result ≡ variable_sort v }
{
    if v < MOST_VARIABLES {
        return Ok(expression(1, v + 1));
    }
    Err(Misfit::Arity)
}

// Pairs turned round or chained.
fn turned(s: Sort) -> Result<Sort, Misfit>
    ensures { result ≡ turned_sort s }
{
    match s {
        Sort::Expression { arity: 2, bound } => Ok(expression(2, bound)),
        _ => Err(Misfit::Arity),
    }
}

// An expression an instant later.
fn later(s: Sort) -> Result<Sort, Misfit>
    ensures { result ≡ next_sort s }
{
    match s {
        Sort::Expression { .. } => Ok(s),
        Sort::Formula { .. } => Err(Misfit::Arity),
    }
}

fn tested(s: Sort) -> Result<Sort, Misfit>
    ensures { result ≡ tested_sort s }
{
    match s {
        Sort::Expression { bound, .. } => Ok(Sort::Formula { past: 0, bound }),
        Sort::Formula { .. } => Err(Misfit::Arity),
    }
}

fn combined(operator: Operator, s: Sort, t: Sort) -> Result<Sort, Misfit>
    ensures { result ≡ combined_of operator s t }
{
    match (s, t) {
        (Sort::Expression { arity: a, .. }, Sort::Expression { arity: b, .. }) => {
            let arity = operator.outcome(a, b).ok_or(Misfit::Arity)?;
            Ok(expression(arity, s.bound().max(t.bound())))
        }
        _ => Err(Misfit::Arity),
    }
}

fn compared(s: Sort, t: Sort) -> Result<Sort, Misfit>
    ensures { result ≡ compared_of s t }
{
    match (s, t) {
        (Sort::Expression { arity: a, .. }, Sort::Expression { arity: b, .. }) if a == b => {
            Ok(Sort::Formula {
                past: 0,
                bound: s.bound().max(t.bound()),
            })
        }
        _ => Err(Misfit::Arity),
    }
}

// A formula one deeper in the past, or as deep, if that is not too deep.
fn deepened(past: usize, deeper: usize, bound: usize) -> Result<Sort, Misfit>
    requires { deeper ≤ 1 }
    ensures { result ≡ shallow_of (formula_of (past + deeper) bound) }
{
    if past <= MOST_PAST - deeper {
        return Ok(Sort::Formula {
            past: past + deeper,
            bound,
        });
    }
    Err(Misfit::Past)
}

fn prefixed(prefix: Prefix, s: Sort) -> Result<Sort, Misfit>
    ensures { result ≡ prefixed_of (prefix_past prefix) s }
{
    match s {
        Sort::Formula { past, bound } => deepened(past, prefix.past(), bound),
        Sort::Expression { .. } => Err(Misfit::Arity),
    }
}

fn joined(infix: Infix, s: Sort, t: Sort) -> Result<Sort, Misfit>
    ensures { result ≡ joined_of (infix_past «infix») s t }
{
    match (s, t) {
        (Sort::Formula { .. }, Sort::Formula { .. }) => deepened(
            s.past().max(t.past()),
            infix.past(),
            s.bound().max(t.bound()),
        ),
        _ => Err(Misfit::Arity),
    }
}

// A variable is used in the body only.
fn quantified(variable: usize, domain: Sort, body: Sort) -> Result<Sort, Misfit>
    ensures { result ≡ quantified_of variable domain body }
{
    match (domain, body) {
        (Sort::Expression { arity: 1, bound }, Sort::Formula { past, bound: inner })
            if variable < MOST_VARIABLES && bound <= variable && inner <= variable + 1 => {
            Ok(Sort::Formula {
                past,
                bound: variable,
            })
        }
        _ => Err(Misfit::Arity),
    }
}
