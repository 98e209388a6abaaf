ghost use Rattle.std.specs.Prelude.{◌≤◌, length};

mod calls;

// Entries in a lent slice, bottom first; the slice's length is the limit, and it is lent so that no call can run out of memory.
#[derive(Drop)]
pub struct Stack<'a, T> {
    items: &'a mut [T],
    count: usize,
    ghost fits: { count ≤ length items.now },
}

// Why an entry was not put on top: the stack has as many as there may be.
#[derive(Clone, Copy, PartialEq, Eq, Debug)]
pub struct Full;
