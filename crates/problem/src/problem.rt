ghost use Rattle.std.specs.Prelude.{◌≡◌, ◌-◌, ◌<◌, true, length};
ghost use Rattle.problem.specs.Sorts.{is_formula, sort_at, bound_at};
ghost use Rattle.problem.specs.Drafts.{sorts_of};

use super::draft::Draft;

mod calls;
mod fresh;

// Atoms, relations, a horizon, and a whole formula.
#[derive(Drop)]
pub struct Problem {
    draft: Draft,
    ghost some: { 0 < length (sorts_of draft) },
    ghost formula: { is_formula (sort_at (sorts_of draft) (length (sorts_of draft) - 1)) ≡ true },
    ghost closed: { bound_at (sorts_of draft) (length (sorts_of draft) - 1) ≡ 0 },
}
