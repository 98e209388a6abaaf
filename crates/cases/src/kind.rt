ghost use Rattle.std.specs.Prelude.{◌≡◌};
ghost use Rattle.cases.specs.Kinds.{spelt, IsKind};

// The kind of a case.
#[derive(Clone, Copy)]
pub enum Kind {
    Record,
    Log,
    Text,
    Verdict,
}

const KINDS: [Kind; 4] = [Kind::Record, Kind::Log, Kind::Text, Kind::Verdict];

impl Kind {
    // The word that a case of the kind begins with.
    fn word(&self) -> &'static [u8]
        ensures { result.now ≡ spelt self.now }
    {
        match self {
            Kind::Record => b"record",
            Kind::Log => b"log",
            Kind::Text => b"text",
            Kind::Verdict => b"verdict",
        }
    }

    // The kind of a case, by its first word.
    pub fn of(word: &[u8]) -> Option<Kind>
        ensures { IsKind word.now result }
    {
        KINDS.iter().find(|kind| kind.word() == word).copied()
    }
}
