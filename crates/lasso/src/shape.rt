ghost use Rattle.std.specs.Prelude.{◌<◌};

mod calls;

// How many states a lasso has, and the state that follows the last one.
#[derive(Clone, Copy, PartialEq, Eq, Debug)]
pub struct Shape {
    states: usize,
    loop_start: usize,
    ghost loops: { loop_start < states },
}
