ghost use Rattle.std.specs.Prelude.{◌≡◌, None};
ghost use Rattle.formulas.specs.Outcomes.{asked};

use faults::Fault;

// What arity an expression has to have, and where it is refused if it has another.
#[derive(Clone, Copy, PartialEq, Eq, Debug)]
pub struct Wish {
    pub arity: usize,
    pub place: usize,
}

// What is asked of an expression: by a sign right before it, and of the whole that it ends.
#[derive(Clone, Copy)]
pub struct Wishes {
    pub under: Option<Wish>,
    pub whole: Option<Wish>,
}

impl Wishes {
    // Nothing is asked by a sign before.
    pub(crate) fn of_whole(whole: Option<Wish>) -> Wishes
        ensures under { result.under ≡ None }
        ensures whole { result.whole ≡ whole }
    {
        Wishes { under: None, whole }
    }
}

// Refuses an arity that is not wished for.
pub fn ask(wish: Option<Wish>, arity: usize) -> Result<(), Fault>
    ensures { result ≡ asked wish arity }
{
    match wish {
        Some(wish) if wish.arity != arity => Err(Fault::ArityMismatch { place: wish.place }),
        _ => Ok(()),
    }
}
