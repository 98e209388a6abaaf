ghost use Rattle.std.specs.Prelude.{◌≡◌, ◌-◌, length};
ghost use Rattle.problem.specs.Problems.{atoms_in, nodes_in, sorts_in};
ghost use Rattle.meaning.specs.NodeLaws.{past_at};
ghost use Rattle.meaning.specs.RowLaws.{window as window_of};

use problem::Problem;
use rows::Window;
use table::Table;
use tuples::Atoms;

// What the formula of a problem is evaluated by: the table of an endless path, the atoms, and as many instants as its past needs.
#[derive(Clone, Copy)]
pub(crate) struct Setting<'p> {
    pub(crate) problem: &'p Problem,
    pub(crate) table: &'p Table,
    pub(crate) atoms: Atoms,
    pub(crate) window: Window,
    ghost counted: { atoms.count ≡ length (atoms_in problem.now) },
    ghost deep: { window.instants ≡ window_of table.now.shape.states table.now.shape.loop_start (past_at (sorts_in problem.now) (length (nodes_in problem.now) - 1)) },
    ghost again: { window.period ≡ table.now.shape.states - table.now.shape.loop_start },
}
