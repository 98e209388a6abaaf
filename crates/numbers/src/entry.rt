ghost use Rattle.std.specs.Prelude.{◌≡◌, ℕ};

// What the numbers of a list stand for: each says a place.
pub trait Entry {
    ghost place_of: { ℕ → ℕ };

    // The place that a number says.
    fn place_of(number: u32) -> usize
        ensures { result ≡ place_of number };
}
