// Why a call is refused: the paper's list of numbers, each with its name.
#![tactic(auto)]

ghost use Rattle.std.specs.Prelude.{◌≡◌};
ghost use Rattle.refusals.specs.Promise.{NumberPromise, IndexPromise};

/// Why a call is refused. Where the list names an index beside the number, the index stands in it.
#[derive(Clone, Copy, Debug, PartialEq, Eq)]
pub enum Refusal {
    // ---- bursts and texts
    LongBurst,
    NoText,
    ClashAt(usize),
    LongText,
    // ---- what stands in a header text, up to what should stand at the index
    NoStartAt(usize),
    NoOriginAt(usize),
    NoEventAt(usize),
    NoPlaceAt(usize),
    NoDurationAt(usize),
    NoIssueAt(usize),
    NoSenderAt(usize),
    MoreAt(usize),
    // ---- fields that no text says
    BadOrigin,
    BadEvent,
    BadPlaces,
    BadDuration,
    BadIssue,
    BadSender,
    // ---- lent space, days and clocks
    NoRoom,
    NoSuchDay,
    BadClock,
    // ---- the book and its subscriptions
    BadBook,
    BadClient,
    BadPlace,
    BadWish,
    StandsAlready,
    StandsNot,
    FullBook,
    // ---- an input of the report program
    Malformed,
}

impl Refusal {
    /// Its number in the list.
    pub fn number(self) -> u32
        ensures { NumberPromise self result }
    {
        match self {
            Refusal::LongBurst => 1,
            Refusal::NoText => 2,
            Refusal::ClashAt(_) => 3,
            Refusal::LongText => 4,
            Refusal::NoStartAt(_) => 5,
            Refusal::NoOriginAt(_) | Refusal::BadOrigin => 6,
            Refusal::NoEventAt(_) | Refusal::BadEvent => 7,
            Refusal::NoPlaceAt(_) | Refusal::BadPlaces => 8,
            Refusal::NoDurationAt(_) | Refusal::BadDuration => 9,
            Refusal::NoIssueAt(_) | Refusal::BadIssue => 10,
            Refusal::NoSenderAt(_) | Refusal::BadSender => 11,
            Refusal::MoreAt(_) => 12,
            Refusal::NoRoom => 13,
            Refusal::NoSuchDay => 14,
            Refusal::BadClock => 15,
            Refusal::BadBook => 16,
            Refusal::BadClient => 17,
            Refusal::BadPlace => 18,
            Refusal::BadWish => 19,
            Refusal::StandsAlready => 20,
            Refusal::StandsNot => 21,
            Refusal::FullBook => 22,
            Refusal::Malformed => 23,
        }
    }

    /// The index that is named beside the number, if one is.
    pub fn index(self) -> Option<usize>
        ensures { IndexPromise self result }
    {
        match self {
            Refusal::LongText => Some(252),
            Refusal::ClashAt(i)
            | Refusal::NoStartAt(i)
            | Refusal::NoOriginAt(i)
            | Refusal::NoEventAt(i)
            | Refusal::NoPlaceAt(i)
            | Refusal::NoDurationAt(i)
            | Refusal::NoIssueAt(i)
            | Refusal::NoSenderAt(i)
            | Refusal::MoreAt(i) => Some(i),
            _ => None,
        }
    }
}
