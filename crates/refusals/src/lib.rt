// Why a call is refused, and the customer's number of it.
#![tactic(auto)]

ghost use Rattle.std.specs.Prelude.{◌≡◌};
ghost use Rattle.refusals.specs.Numbers.{refusal_number, number_of};

// Each rule's name, in the order of the customer's numbers.
#[derive(Clone, Copy, Debug, PartialEq, Eq)]
pub enum Refusal {
    NoPoints = 1,
    StrideBelowPoints = 2,
    ValuesLength = 3,
    PositionsLength = 4,
    NotThreeComponents = 5,
    WeightsLength = 6,
    OverLimit = 7,
    NoBins = 8,
    MaxNotAboveMin = 9,
    NotFinite = 10,
    NoBinSize = 11,
    TooFewEdges = 12,
    NotIncreasing = 13,
    EmptyAxis = 14,
    XStride = 15,
    ZStride = 16,
    YStride = 17,
    BlockLength = 18,
    ComponentsLength = 19,
    WidthNotPositive = 20,
    BlockOrder = 21,
    NoPairs = 22,
    NotSingle = 23,
    PackShape = 24,
    StateIndex = 25,
    SegmentIndex = 26,
    RecordLength = 27,
    FileUnreadable = 28,
}

// The number that the customer gives the rule.
impl From<Refusal> for u32 {
    ghost from_gives = { λ refusal n. n ≡ refusal_number refusal };

    fn from(refusal: Refusal) -> u32 {
        refusal as u32
    }
}

// The number of a call's refusal, 0 where it is accepted.
pub fn number_of(answer: Result<(), Refusal>) -> u32
    ensures { result ≡ number_of answer }
{
    match answer {
        Ok(()) => 0,
        Err(refusal) => u32::from(refusal),
    }
}
