ghost use Rattle.std.specs.Prelude.{◌≡◌, ◌≤◌, length};

use lasso::Value;

mod combined;
mod filled;
mod folds;
mod formulas;
mod leaves;
mod parts;
mod turned;

pub use formulas::quantified;

// The values of tuples of so many atoms, by the tuples' numbers. An array and no `Vec`: evaluation may not run out of memory.
#[derive(Clone, Copy)]
pub struct Tuples {
    arity: usize,
    values: [Value; 512],
    ghost some: { 1 ≤ arity },
    ghost few: { arity ≤ 3 },
    ghost whole: { length values ≡ 512 },
}
