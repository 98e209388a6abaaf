ghost use Rattle.std.specs.Prelude.{◌≤◌, length};

mod calls;

// Reads numbers one after another: bytes, and the index of the one that is read next.
#[derive(Clone, Copy)]
pub struct Reader<'a> {
    bytes: &'a [u8],
    at: usize,
    ghost inside: { at ≤ length bytes.now },
}
