use super::shown::Shown;
use names::Named;
use places::{Members, Tuple, at_place, atoms_of};
use problem::Problem;
use std::fmt;

// The tuple at a place, as `near(lamp fan)`.
#[derive(Drop)]
pub struct TupleInWords<'a> {
    pub problem: &'a Problem,
    pub place: usize,
}

impl fmt::Display for TupleInWords<'_> {
    fn fmt<W: fmt::Write>(&self, f: &mut fmt::Formatter<W>) -> fmt::Result {
        let Some(tuple) = at_place(self.problem, self.place) else {
            return Ok(());
        };
        tuple_in_words(self.problem, tuple, f)
    }
}

// The name of the relation, and its atoms in brackets.
fn tuple_in_words<W: fmt::Write>(
    problem: &Problem,
    tuple: Tuple,
    f: &mut fmt::Formatter<W>,
) -> fmt::Result {
    name_at(problem.relations(), tuple.relation, f)?;
    f.write_char('(')?;
    if let Some(members) = atoms_of(problem, tuple) {
        members_in_words(problem, members, f)?;
    }
    f.write_char(')')
}

// The names of one atom or of two.
fn members_in_words<W: fmt::Write>(
    problem: &Problem,
    members: Members,
    f: &mut fmt::Formatter<W>,
) -> fmt::Result {
    let atoms = problem.atoms();
    match members {
        Members::One(a) => name_at(atoms, a, f),
        Members::Two(a, b) => {
            name_at(atoms, a, f)?;
            f.write_char(' ')?;
            name_at(atoms, b, f)
        }
    }
}

// The name of the entry at an index; nothing beyond the end.
fn name_at<T: Named, W: fmt::Write>(
    list: &[T],
    at: usize,
    f: &mut fmt::Formatter<W>,
) -> fmt::Result {
    let Some(entry) = list.get(at) else {
        return Ok(());
    };
    let name = Shown {
        bytes: entry.name(),
    };
    write!(f, "{name}")
}
