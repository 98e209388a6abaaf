use super::counts::certain;
use super::place_in_text::place_in_text;
use super::shown::Shown;
use faults::Fault;
use names::Named;
use problem::Problem;
use relations::{MOST_FREE, Relation};
use std::fmt;
use words::Refusal;

// What an accepted text holds, in a few lines.
#[derive(Drop)]
pub struct Accepted<'a> {
    pub problem: &'a Problem,
    pub bytes: usize,
}

impl fmt::Display for Accepted<'_> {
    fn fmt<W: fmt::Write>(&self, f: &mut fmt::Formatter<W>) -> fmt::Result {
        let (problem, bytes) = (self.problem, self.bytes);
        writeln!(f, "a problem of {bytes} bytes")?;
        atoms_in_words(problem, f)?;
        relations_in_words(problem, f)?;
        let (horizon, parts, free) = (
            problem.horizon(),
            problem.parts().len(),
            problem.free_places(),
        );
        writeln!(f, "horizon: {horizon}")?;
        writeln!(f, "formula: {parts} parts")?;
        writeln!(f, "free places: {free} of at most {MOST_FREE}")
    }
}

// A line with the names of the atoms.
fn atoms_in_words<W: fmt::Write>(problem: &Problem, f: &mut fmt::Formatter<W>) -> fmt::Result {
    f.write_str("atoms:")?;
    for atom in problem.atoms() {
        let name = Shown { bytes: atom.name() };
        write!(f, " {name}")?;
    }
    writeln!(f, "")
}

// A line for each relation.
fn relations_in_words<W: fmt::Write>(problem: &Problem, f: &mut fmt::Formatter<W>) -> fmt::Result {
    for (i, relation) in problem.relations().iter().enumerate() {
        relation_in_words(relation, problem.size(i), f)?;
    }
    Ok(())
}

// A relation, of which there may be so many tuples.
fn relation_in_words<W: fmt::Write>(
    relation: &Relation,
    size: usize,
    f: &mut fmt::Formatter<W>,
) -> fmt::Result {
    let name = Shown {
        bytes: relation.name(),
    };
    let kind = relation.mutability();
    let (arity, always, free) = (
        relation.arity().number(),
        certain(relation, size),
        relation.free(size),
    );
    writeln!(
        f,
        "relation {name}: {kind}, arity {arity}, tuples always in {always}, free {free}"
    )
}

// Why a text is refused, and where: the line of the text, and a mark under the place.
#[derive(Drop)]
pub struct Refused<'a> {
    pub text: &'a [u8],
    pub fault: Fault,
}

impl fmt::Display for Refused<'_> {
    fn fmt<W: fmt::Write>(&self, f: &mut fmt::Formatter<W>) -> fmt::Result {
        let fault = self.fault;
        let refusal = Refusal { fault };
        writeln!(f, "{refusal}")?;
        mark(self.text, fault.place(), f)
    }
}

// The line and the column of a place, that line of the text, and a mark under the place.
fn mark<W: fmt::Write>(text: &[u8], place: usize, f: &mut fmt::Formatter<W>) -> fmt::Result {
    let at = place_in_text(text, place);
    let (line, column) = (at.line, at.column);
    writeln!(f, "line {line}, column {column}")?;
    let shown = Shown {
        bytes: &text[at.start..at.end],
    };
    writeln!(f, "{shown}")?;
    writeln!(f, "{:>column$}", '^')
}
