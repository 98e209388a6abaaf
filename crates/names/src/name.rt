ghost use Rattle.std.specs.Prelude.{◌≤◌};

mod calls;

// The most bytes of a name.
pub const MOST_BYTES: usize = 12;

// A name of its own: its bytes, of which there are few. An array and a length, since a name is copied and asks for no memory.
#[derive(Clone, Copy)]
pub struct Name {
    bytes: [u8; MOST_BYTES],
    len: usize,
    ghost short: { len ≤ 12 },
}
