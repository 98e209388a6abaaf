ghost use Rattle.std.specs.Prelude.{◌≡◌, ◌<◌, ◌≤◌, length, IfOk};
ghost use Rattle.numbers.specs.Numbers.{limit, first, Bytes};

// The most bytes of a record or a log.
pub const MOST_BYTES: usize = 32_768;

// A number that some bytes begin with, and how many bytes it has.
#[derive(Clone, Copy)]
pub(crate) struct Leading {
    pub(crate) value: u32,
    pub(crate) len: usize,
}

// Why some bytes begin with no number: they end too early, or it is not in its shortest form.
#[derive(Clone, Copy)]
pub(crate) enum Unread {
    Ended,
    NotShortest,
}

// Reads group by group.
pub(crate) fn first_number(rest: &[u8]) -> Result<Leading, Unread>
    ensures bytes { Bytes rest.now }
    ensures value { result ≡ first rest.now }
    ensures inside { IfOk result (λ n. (n.value < limit) × (0 < n.len) × (n.len ≤ length rest.now)) }
{
    match rest {
        [] => Err(Unread::Ended),
        [a, ..] if *a < 128 => Ok(Leading {
            value: *a as u32,
            len: 1,
        }),
        [_] => Err(Unread::Ended),
        [_, 0, ..] => Err(Unread::NotShortest),
        [a, b, ..] if *b < 128 => Ok(Leading {
            value: *a as u32 - 128 + *b as u32 * 128,
            len: 2,
        }),
        [_, _] => Err(Unread::Ended),
        [_, _, 0, ..] => Err(Unread::NotShortest),
        [a, b, c, ..] if *c < 128 => Ok(Leading {
            value: *a as u32 - 128 + (*b as u32 - 128) * 128 + *c as u32 * 16384,
            len: 3,
        }),
        _ => Err(Unread::NotShortest),
    }
}
