ghost use Rattle.std.specs.Prelude.{◌≡◌, ℕ, List, map, MatchOption};
ghost use Rattle.names.specs.Lookups.{index_of, FirstNamed, NoneNamed};

// What has a name.
pub trait Named {
    ghost named: { Self → List ℕ };

    fn name(&self) -> &[u8]
        ensures { result.now ≡ named self.now };
}

// The index of the first entry with that name.
#[tactic(auto, using(crate::proofs::Finding::first_named))]
pub fn lookup<T: Named>(list: &[T], name: &[u8]) -> Option<usize>
    ensures value { result ≡ index_of name.now (map T.Named.named list.now) }
    ensures first { MatchOption result (NoneNamed name.now (map T.Named.named list.now)) (λ i. FirstNamed name.now (map T.Named.named list.now) i) }
{
    found(list, name)
}

// Goes through the entries.
fn found<T: Named>(list: &[T], name: &[u8]) -> Option<usize>
    ensures { result ≡ index_of name.now (map T.Named.named list.now) }
{
    list.iter().position(|entry| entry.name() == name)
}
