use problem::Problem;
use table::Table;

// A problem, and what is told of its places in the states of a lasso.
#[derive(Clone, Copy)]
pub(crate) struct Told<'a> {
    pub(crate) problem: &'a Problem,
    pub(crate) table: &'a Table,
}
