ghost use Rattle.std.specs.Prelude.{◌≡◌};
ghost use Rattle.problem.specs.Sorts.{sort_arity, sort_past, sort_bound, of_kind};

// The deepest past of a formula.
pub const MOST_PAST: usize = 4;

// The most variables bound at once.
pub const MOST_VARIABLES: usize = 4;

// What a node is: an expression of an arity, or a formula whose past operators are nested so deep;
// and how many of the variables bound around it it may use.
#[derive(Clone, Copy, PartialEq, Eq, Debug)]
pub enum Sort {
    Expression { arity: usize, bound: usize },
    Formula { past: usize, bound: usize },
}

#[derive(Clone, Copy, PartialEq, Eq, Debug)]
pub enum Kind {
    Formula,
    Expression,
}

// Why a node does not fit: its parts or their arities, past operators too deep, or too many nodes.
#[derive(Clone, Copy, PartialEq, Eq, Debug)]
pub enum Misfit {
    Arity,
    Past,
    Room,
}

impl Sort {
    // How many atoms the tuples of an expression have; 0 of a formula.
    pub fn arity(self) -> usize
        ensures { result ≡ sort_arity self }
    {
        match self {
            Sort::Expression { arity, .. } => arity,
            Sort::Formula { .. } => 0,
        }
    }

    // How deep the past operators of a formula are nested; 0 of an expression.
    pub fn past(self) -> usize
        ensures { result ≡ sort_past self }
    {
        match self {
            Sort::Expression { .. } => 0,
            Sort::Formula { past, .. } => past,
        }
    }

    // How many of the variables bound around it it may use.
    pub fn bound(self) -> usize
        ensures { result ≡ sort_bound self }
    {
        match self {
            Sort::Expression { bound, .. } | Sort::Formula { bound, .. } => bound,
        }
    }
}

impl Kind {
    // Whether a sort is of this kind.
    pub(crate) fn admits(self, sort: Sort) -> bool
        ensures { result ≡ of_kind self sort }
    {
        matches!(
            (self, sort),
            (Kind::Formula, Sort::Formula { .. }) | (Kind::Expression, Sort::Expression { .. })
        )
    }
}
