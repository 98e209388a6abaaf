ghost use Rattle.std.specs.Iterator.{IsFinite};

use std::fmt;

// Writes the items, with commas between them.
pub(crate) fn write_list<W: fmt::Write, I: Iterator + Drop>(
    f: &mut fmt::Formatter<W>,
    mut items: I,
) -> fmt::Result
where
    I::Item: fmt::Display + Drop,
    requires can { I.can_next items }
    requires ends { IsFinite (I.remaining items) }
{
    if let Some(first) = items.next() {
        write!(f, "{first}")?;
        for item in items {
            write!(f, ",{item}")?;
        }
    }
    Ok(())
}
