use super::node::Node;
use super::sort::Sort;

// A node of a formula, and what it is.
#[derive(Clone, Copy, PartialEq, Eq, Debug)]
pub struct Part {
    pub node: Node,
    pub sort: Sort,
}
