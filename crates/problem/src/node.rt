ghost use Rattle.std.specs.Prelude.{◌≡◌, ◌≤◌, true, false, IfSome, MatchOption};
ghost use Rattle.problem.specs.Sorts.{constant_arity, suits, outcome as outcome_of, prefix_past, infix_past};

// Sets of tuples that every problem has: all atoms, no atom, each atom beside itself.
#[derive(Clone, Copy, PartialEq, Eq, Debug)]
pub enum Constant {
    Univ,
    None,
    Iden,
}

// What a sign before an expression makes of its pairs.
#[derive(Clone, Copy, PartialEq, Eq, Debug)]
pub enum Turn {
    Transpose,
    Closure,
}

// What a sign between two expressions makes of them.
#[derive(Clone, Copy, PartialEq, Eq, Debug)]
pub enum Operator {
    Union,
    Difference,
    Intersection,
    Product,
    Join,
}

// What is asked of one expression.
#[derive(Clone, Copy, PartialEq, Eq, Debug)]
pub enum Test {
    Some,
    No,
}

// How two expressions are compared.
#[derive(Clone, Copy, PartialEq, Eq, Debug)]
pub enum Comparison {
    In,
    Equal,
}

// A word before a formula.
#[derive(Clone, Copy, PartialEq, Eq, Debug)]
pub enum Prefix {
    Not,
    After,
    Always,
    Eventually,
    Before,
    Historically,
    Once,
}

// A word between two formulas.
#[derive(Clone, Copy, PartialEq, Eq, Debug)]
pub enum Infix {
    And,
    Or,
    Implies,
    Until,
    Since,
}

#[derive(Clone, Copy, PartialEq, Eq, Debug)]
pub enum Quantifier {
    All,
    Some,
}

// A part of a formula. Its own parts are given by their indices in the list of nodes, and stand before it: the memory of a problem is
// asked for once, and a box for each part would be asked for one by one.
#[derive(Clone, Copy, PartialEq, Eq, Debug)]
pub enum Node {
    Relation(usize),
    Variable(usize),
    Constant(Constant),
    Turned(Turn, usize),
    Next(usize),
    Combined(Operator, usize, usize),
    Tested(Test, usize),
    Compared(Comparison, usize, usize),
    Prefixed(Prefix, usize),
    Joined(Infix, usize, usize),
    Quantified {
        quantifier: Quantifier,
        variable: usize,
        domain: usize,
        body: usize,
    },
}

impl Constant {
    // How many atoms its tuples have.
    pub fn arity(self) -> usize
        ensures value { result ≡ constant_arity self }
        ensures some { 1 ≤ result }
        ensures few { result ≤ 2 }
    {
        match self {
            Constant::Univ | Constant::None => 1,
            Constant::Iden => 2,
        }
    }
}

impl Operator {
    // The arity that comes of two arities, if they fit the sign.
    pub fn outcome(self, a: usize, b: usize) -> Option<usize>
        ensures value { MatchOption result (suits self a b ≡ false) (λ r. (suits self a b ≡ true) × (r ≡ outcome_of self a b)) }
        ensures few { a ≤ 3 → IfSome result (λ r. r ≤ 3) }
        ensures some { 1 ≤ a → 1 ≤ b → IfSome result (λ r. 1 ≤ r) }
    {
        match self {
            Operator::Union | Operator::Difference | Operator::Intersection => {
                (a == b).then_some(a)
            }
            Operator::Product => a.checked_add(b).filter(|&sum| sum <= 3),
            Operator::Join => a
                .checked_add(b)
                .filter(|&sum| 3 <= sum && sum <= 5)
                .map(|sum| sum - 2),
        }
    }
}

impl Prefix {
    // How much deeper in the past the word reaches.
    pub(crate) fn past(self) -> usize
        ensures value { result ≡ prefix_past self }
        ensures few { result ≤ 1 }
    {
        match self {
            Prefix::Not | Prefix::After | Prefix::Always | Prefix::Eventually => 0,
            Prefix::Before | Prefix::Historically | Prefix::Once => 1,
        }
    }
}

impl Infix {
    // How much deeper in the past the word reaches.
    pub(crate) fn past(self) -> usize
        ensures value { result ≡ infix_past self }
        ensures few { result ≤ 1 }
    {
        match self {
            Infix::And | Infix::Or | Infix::Implies | Infix::Until => 0,
            Infix::Since => 1,
        }
    }
}
