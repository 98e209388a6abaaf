//! Every refusal of the product: its number, its layer, its place, and words for it.
#![tactic(auto)]

ghost use Rattle.std.specs.Prelude.{◌≡◌, ◌≤◌};
ghost use Rattle.faults.specs.Table.{entry, layer_of};

use lasso::Instant;
use thiserror::Error;

// Which part of the product refuses.
#[derive(Clone, Copy, PartialEq, Eq, Debug)]
pub enum Layer {
    Signs,
    Grammar,
    Sense,
    Bytes,
    Session,
}

// Why something is refused. A place is the index of a byte of what was read; in a contradiction it is a place of the problem.
#[derive(Clone, Copy, PartialEq, Eq, Debug, Error)]
pub enum Fault {
    #[error("the text has more than 8,192 bytes")]
    TextTooLong,
    #[error("this byte begins no name, number or sign")]
    NoToken { place: usize },
    #[error("a name has at most 12 bytes, a number at most 3 digits")]
    TokenTooLong { place: usize },
    #[error("this cannot stand here")]
    NotAllowed { place: usize },
    #[error("this name is taken already")]
    NameKnown { place: usize },
    #[error("this name is not known here")]
    NameUnknown { place: usize },
    #[error("the arities do not fit")]
    ArityMismatch { place: usize },
    #[error("a limit is not kept here")]
    OverLimit { place: usize },
    #[error("this tuple of the lower set is not in the upper set")]
    LowerOutsideUpper { place: usize },
    #[error("there are more than 256 free places")]
    TooManyFreePlaces { place: usize },
    #[error("the bytes end too early")]
    EndsEarly { place: usize },
    #[error("this number is not in its shortest form, or has more than three groups")]
    NotShortest { place: usize },
    #[error("only edition 1 is known")]
    UnknownEdition { place: usize },
    #[error("this number is outside its limits")]
    OutsideLimits { place: usize },
    #[error("the places must ascend and lie below the place count")]
    PlaceOutOfOrder { place: usize },
    #[error("bytes are left over")]
    BytesLeftOver { place: usize },
    #[error("fewer states would do for the same behaviour")]
    FewerStatesWouldDo,
    #[error("there are more than 32,768 bytes")]
    TooManyBytes,
    #[error("the problem and the source differ in their place counts")]
    PlaceCountsDiffer,
    #[error("the source contradicts the bounds or itself at this place")]
    Contradiction { place: usize, instant: Instant },
    #[error("no configuration is at hand")]
    NoConfiguration,
    #[error("this configuration has no more traces")]
    NoMoreTraces,
    #[error("there are no more configurations")]
    NoMoreConfigurations,
    #[error("the buffer is too short")]
    BufferTooShort,
    #[error("a source has at most 768 places, and a part of a trace at most 16 instants")]
    OutsideSource,
}

impl Fault {
    // The number of the refusal, 1 to 25.
    pub fn number(self) -> u8
        ensures value { result ≡ (entry self).number }
        ensures low { 1 ≤ result }
        ensures high { result ≤ 25 }
    {
        match self {
            Fault::TextTooLong => 1,
            Fault::NoToken { .. } => 2,
            Fault::TokenTooLong { .. } => 3,
            Fault::NotAllowed { .. } => 4,
            Fault::NameKnown { .. } => 5,
            Fault::NameUnknown { .. } => 6,
            Fault::ArityMismatch { .. } => 7,
            Fault::OverLimit { .. } => 8,
            Fault::LowerOutsideUpper { .. } => 9,
            Fault::TooManyFreePlaces { .. } => 10,
            Fault::EndsEarly { .. } => 11,
            Fault::NotShortest { .. } => 12,
            Fault::UnknownEdition { .. } => 13,
            Fault::OutsideLimits { .. } => 14,
            Fault::PlaceOutOfOrder { .. } => 15,
            Fault::BytesLeftOver { .. } => 16,
            Fault::FewerStatesWouldDo => 17,
            Fault::TooManyBytes => 18,
            Fault::PlaceCountsDiffer => 19,
            Fault::Contradiction { .. } => 20,
            Fault::NoConfiguration => 21,
            Fault::NoMoreTraces => 22,
            Fault::NoMoreConfigurations => 23,
            Fault::BufferTooShort => 24,
            Fault::OutsideSource => 25,
        }
    }

    // The layer that refuses: it follows from the number.
    pub fn layer(self) -> Layer
        ensures value { result ≡ (entry self).layer }
        ensures ranges { result ≡ layer_of (entry self).number }
    {
        match self.number() {
            1..=3 => Layer::Signs,
            4 => Layer::Grammar,
            5..=10 => Layer::Sense,
            11..=18 => Layer::Bytes,
            _ => Layer::Session,
        }
    }

    // Where it is refused.
    pub fn place(self) -> usize
        ensures { result ≡ (entry self).place }
    {
        match self {
            Fault::TextTooLong => 8192,
            Fault::NoToken { place }
            | Fault::TokenTooLong { place }
            | Fault::NotAllowed { place }
            | Fault::NameKnown { place }
            | Fault::NameUnknown { place }
            | Fault::ArityMismatch { place }
            | Fault::OverLimit { place }
            | Fault::LowerOutsideUpper { place }
            | Fault::TooManyFreePlaces { place }
            | Fault::EndsEarly { place }
            | Fault::NotShortest { place }
            | Fault::UnknownEdition { place }
            | Fault::OutsideLimits { place }
            | Fault::PlaceOutOfOrder { place }
            | Fault::BytesLeftOver { place }
            | Fault::Contradiction { place, .. } => place,
            _ => 0,
        }
    }

    // The instant of a contradiction; the other refusals have none.
    pub fn instant(self) -> Option<Instant>
        ensures { result ≡ (entry self).instant }
    {
        match self {
            Fault::Contradiction { instant, .. } => Some(instant),
            _ => None,
        }
    }
}
