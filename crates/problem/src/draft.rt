ghost use Rattle.std.specs.Prelude.{◌≡◌, ◌≤◌, map, vec_len, vec_capacity};
ghost use Rattle.problem.specs.Sorts.{part_node, part_sort, Judged};
ghost use Rattle.relations.specs.Declarations.{relations_of, arities};

use super::part::Part;
use relations::Signature;

mod calls;

// The most nodes of a formula.
pub const MOST_PARTS: usize = 256;

// Room for all nodes that a formula may have.
#[derive(Drop)]
pub struct Room {
    parts: Vec<Part>,
    ghost none: { vec_len parts ≡ 0 },
    ghost room: { 256 ≤ vec_capacity parts },
}

// The nodes of a formula so far over a signature, and what each of them is.
#[derive(Drop)]
pub struct Draft {
    signature: Signature,
    parts: Vec<Part>,
    ghost few: { vec_len parts ≤ 256 },
    ghost room: { 256 ≤ vec_capacity parts },
    ghost judged: { Judged (arities (relations_of signature.declared)) (map part_node parts.items) (map part_sort parts.items) },
}
