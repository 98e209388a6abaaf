ghost use Rattle.meaning.specs.Tables.{table_at};
ghost use Rattle.meaning.specs.Rows.{RowIs};
ghost use Rattle.evaluate.specs.Shown.{of_none, gathered as gathered_of};

use problem::{Infix, Prefix, Quantifier};
use rows::{Row, Window};

// What a quantifier says of no atom: all of them hold, and not some.
pub(crate) fn of_none(quantifier: Quantifier, window: Window) -> Row
    ensures { RowIs window.instants result.values (λ i. of_none quantifier) }
{
    match quantifier {
        Quantifier::All => Row::blank().prefixed(Prefix::Not, window),
        Quantifier::Some => Row::blank(),
    }
}

// What a quantifier says of one atom more, by whether the atom is one of the domain and whether the formula holds for it. Five values
// and no struct: the loop that calls it has each by its own name, and no fact ties them.
pub(crate) fn gathered(
    quantifier: Quantifier,
    row: &Row,
    member: &Row,
    body: &Row,
    window: Window,
) -> Row
    ensures { RowIs window.instants result.values (λ i. gathered_of quantifier (table_at row.now.values i) (table_at member.now.values i) (table_at body.now.values i)) }
{
    match quantifier {
        Quantifier::All => {
            let held = member.joined(Infix::Implies, body, window);
            row.joined(Infix::And, &held, window)
        }
        Quantifier::Some => {
            let held = member.joined(Infix::And, body, window);
            row.joined(Infix::Or, &held, window)
        }
    }
}
