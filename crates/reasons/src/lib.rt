// Why a call is refused: each reason by a name of its own, and the number that the documents give it.
#![tactic(auto)]

ghost use Rattle.std.specs.Prelude.{◌≡◌};
ghost use Rattle.reasons.specs.Numbers.{number};

// The reasons in the order of their numbers, 1 to 15, which is the order in which a call is checked.
#[derive(Clone, Copy, PartialEq, Eq, Debug)]
pub enum Refusal {
    LengthsDiffer = 1,
    TooManyItems,
    PageTooLarge,
    WeightTooLarge,
    ProfitTooLarge,
    WidthOutOfRange,
    DepthMismatch,
    PathMismatch,
    RecordMismatch,
    LayerFull,
    NodesFull,
    EdgesFull,
    RecordsFull,
    NotPickable,
    NotAJob,
}

impl Refusal {
    // The number of a reason, as a host and a page give it.
    pub fn number(self) -> u64
        ensures { result ≡ number self }
    {
        self as u64
    }
}
