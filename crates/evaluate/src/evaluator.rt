ghost use Rattle.evaluate.specs.Known.{KnownIs, LargeAre};
ghost use Rattle.evaluate.specs.Kept.{KeptIs};

use super::few::Few;
use super::kept::{Kept, States};
use super::setting::Setting;
use rows::Row;

// What the formula of a problem is evaluated by, and what is worked out once: of nodes that use no variable. Its functions take a
// node's index and ask that there is such a node: a type that says so would hold the problem too, each function would ask that it is
// this one, and the index is what falls at each recursive call.
#[derive(Drop)]
pub(crate) struct Evaluator<'p> {
    pub(crate) setting: Setting<'p>,
    pub(crate) tables: Kept<States<16>>,
    pub(crate) large: Few<States<128>>,
    pub(crate) rows: Kept<Row>,
    ghost known: { KnownIs setting.atoms.count setting.problem.now setting.table.now tables.items },
    ghost listed: { LargeAre setting.atoms.count setting.problem.now setting.table.now large.entries },
    ghost kept: { KeptIs setting.atoms.count setting.window setting.problem.now setting.table.now rows.items },
}
