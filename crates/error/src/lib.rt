// The refusals, as an enum for each function: training, reading a piece, merging symbols.
//
// The table of refusals gives each a number, and some tell more: that stands in the variant.
#![tactic(auto)]

ghost use Rattle.std.specs.Prelude.{◌≡◌};
ghost use Rattle.runs.specs.Parts.{nth};
ghost use Rattle.error.specs.Answers.{train_verdict, piece_verdict, merge_error_verdict};

// What was asked for has no place in a lent room.
#[derive(Clone, Copy)]
pub struct NoRoom;

// Why a table was not trained on.
#[derive(Clone, Copy)]
pub enum TrainError {
    // The runs do not make a table, or the seeding is neither Bytes nor Chars.
    BadShape,
    // The table or the size asked for is over a fixed limit.
    TooMany,
    // There are no words.
    EmptyCorpus,
    // A word has the frequency 0: the first such.
    ZeroFrequency { word: u64 },
    // A word does not stand above the one before it: the first such.
    OutOfOrder { word: u64 },
    // Frequency times units, summed over the words, is too large.
    TooHeavy,
    // The work room is below the bytes needed.
    WorkRoom { needed: u64 },
    // The seeds exceed the room for pieces or for their ends.
    SeedRoom,
    // The vocabulary asked for is smaller than its own alphabet.
    VocabTooSmall { requested: u64, alphabet: u64 },
    // The full answer exceeds an output room.
    OutputRoom,
}

impl TrainError {
    // The number in the table of refusals.
    #[tactic(auto, unfolding(crate::specs::Answers::train_verdict))]
    pub fn number(self) -> u64
        ensures { result ≡ (train_verdict self).number }
    {
        match self {
            TrainError::BadShape => 1,
            TrainError::TooMany => 2,
            TrainError::EmptyCorpus => 3,
            TrainError::ZeroFrequency { .. } => 4,
            TrainError::OutOfOrder { .. } => 5,
            TrainError::TooHeavy => 6,
            TrainError::WorkRoom { .. } => 7,
            TrainError::SeedRoom => 8,
            TrainError::VocabTooSmall { .. } => 9,
            TrainError::OutputRoom => 10,
        }
    }

    // The first number given, 0 where there is none.
    // Stays: C is told 0 where a refusal gives no number, as the clause has it by `nth`.
    #[tactic(auto, unfolding(runs::specs::Parts::nth, crate::specs::Answers::train_verdict))]
    pub fn first(self) -> u64
        ensures { result ≡ nth (train_verdict self).gives 0 }
    {
        match self {
            TrainError::ZeroFrequency { word } => word,
            TrainError::OutOfOrder { word } => word,
            TrainError::WorkRoom { needed } => needed,
            TrainError::VocabTooSmall { requested, .. } => requested,
            _ => 0,
        }
    }

    // The second number given, 0 where there is none.
    // Stays: as `first`, what C is told.
    #[tactic(auto, unfolding(runs::specs::Parts::nth, crate::specs::Answers::train_verdict))]
    pub fn second(self) -> u64
        ensures { result ≡ nth (train_verdict self).gives 1 }
    {
        if let TrainError::VocabTooSmall { alphabet, .. } = self {
            alphabet
        } else {
            0
        }
    }
}

// Why a piece was not handed out.
#[derive(Clone, Copy)]
pub enum PieceError {
    // The runs do not make a table of pieces.
    BadShape,
    // There is no piece of that number.
    NoSuchId,
}

impl PieceError {
    // The number in the table of refusals.
    #[tactic(auto, unfolding(crate::specs::Answers::piece_verdict))]
    pub fn number(self) -> u64
        ensures { result ≡ (piece_verdict self).number }
    {
        match self {
            PieceError::BadShape => 1,
            PieceError::NoSuchId => 11,
        }
    }
}

// Why symbols were not merged.
#[derive(Clone, Copy)]
pub enum MergeError {
    // The runs do not hold whole symbols and whole reports.
    BadShape,
    // There are more reports than places for them.
    ChangeRoom,
}

impl MergeError {
    // The number in the table of refusals.
    #[tactic(auto, unfolding(crate::specs::Answers::merge_error_verdict))]
    pub fn number(self) -> u64
        ensures { result ≡ (merge_error_verdict self).number }
    {
        match self {
            MergeError::BadShape => 1,
            MergeError::ChangeRoom => 12,
        }
    }
}
