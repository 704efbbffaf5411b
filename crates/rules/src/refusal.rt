// Why a start or a step is refused: the rows of document 01's table, each number once.
ghost use Rattle.std.specs.Prelude.{◌≡◌};
ghost use Rattle.rules.specs.Answers.{number_of};

// A refusal; its value as a number is the table's.
#[derive(Clone, Copy, PartialEq, Eq, Debug)]
pub enum Refusal {
    // Not 1 to 16 values.
    Values = 1,
    // A damaged group, or the entry of a message that names no process of the group.
    Damaged = 2,
    // A process number of the step is not one of the group's.
    NoProcess = 3,
    // The message's round is past the last.
    NoRound = 4,
    // The process is down.
    Down = 5,
    // The message is not in the store.
    NotSent = 6,
    // A recover of a process that is up, or a suspicion that is not possible.
    NotPossible = 7,
    // The step would enter a round past the last.
    PastLastRound = 8,
    // The store is too short.
    ShortStore = 11,
    // The recover would be one too many.
    TooManyRecoveries = 13,
    // The depths are too short, or the message is too deep.
    TooDeep = 14,
}

// The refusal's number in the table.
impl From<Refusal> for u8 {
    ghost from_gives = { λ refusal number. number ≡ number_of refusal };

    #[tactic(auto, unfolding(crate::specs::Answers::number_of))]
    fn from(refusal: Refusal) -> u8
        ensures { result ≡ number_of refusal }
    {
        refusal as u8
    }
}
