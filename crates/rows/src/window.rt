ghost use Rattle.std.specs.Prelude.{◌<◌, ◌≤◌};

mod calls;

// The most instants of a window: four rounds and one more of a lasso of 17 states.
pub const MOST_INSTANTS: usize = 85;

// The first instants of a path, of which the last `period` come again for ever.
#[derive(Clone, Copy)]
pub struct Window {
    instants: usize,
    period: usize,
    ghost some: { 0 < period },
    ghost inside: { period ≤ instants },
    ghost few: { instants ≤ 85 },
}
