ghost use Rattle.std.specs.Prelude.{◌≡◌, true, is_ok};
ghost use Rattle.logs.specs.Logs.{parse};

mod calls;

// A log, over its bytes.
#[derive(Clone, Copy)]
pub struct Log<'a> {
    bytes: &'a [u8],
    ghost read: { is_ok (parse bytes.now) ≡ true },
}
