ghost use Rattle.std.specs.Prelude.{◌≡◌, Decides, MatchResult};
ghost use Rattle.problem.specs.Problems.{sizes_in};
ghost use Rattle.places.specs.Places.{place_count};
ghost use Rattle.source.specs.Meanings.{Meaning};
ghost use Rattle.table.specs.Tables.{Copied};
ghost use Rattle.known.specs.Known.{Fits, Misfit};

use super::told::Told;
use faults::Fault;
use places::places;
use problem::Problem;
use table::Table;

// Whether the answers of a source, as a table, fit a problem; if not, why.
pub fn fit(problem: &Problem, told: &Table) -> Result<(), Fault>
    ensures { (m : Meaning) → Copied m told.now → MatchResult result (λ _. Fits problem.now m) (λ f. Misfit problem.now m f) }
{
    let told = Told {
        problem,
        table: told,
    };
    if !told.counts_agree() {
        return Err(Fault::PlaceCountsDiffer);
    }
    match told.first_clash() {
        Some((instant, place)) => Err(Fault::Contradiction { place, instant }),
        None => Ok(()),
    }
}

impl Told<'_> {
    // Whether the problem and the table have as many places.
    fn counts_agree(&self) -> bool
        ensures { Decides result (self.now.table.now.places ≡ place_count (sizes_in self.now.problem.now)) }
    {
        self.table.places() == places(self.problem)
    }
}
