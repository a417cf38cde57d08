// The marks of a pair: touched, gained and blocked share one number.
//
// Masks set, clear and test each mark. Each contract is one equation that says the whole number, so
// that the other two marks, and the digits above the three, are as they were.
#![tactic(auto)]

ghost use Rattle.std.specs.Prelude.{◌≡◌, ◌^◌, true, false};
ghost use Rattle.marks.specs.Marks.{marked, marking};
ghost use Rattle.marks.specs.Places.{place};

// No mark is set: the marks of a fresh pair.
pub const NONE: u8 = 0;

const TOUCHED: u8 = 1;

const GAINED: u8 = 2;

const BLOCKED: u8 = 4;

// What can be told of a pair, each by a digit of its own.
#[derive(Clone, Copy)]
pub enum Mark {
    // A merge disturbed this pair.
    Touched,
    // A merge gave this pair to a word.
    Gained,
    // The joined piece of this pair would be too long.
    Blocked,
}

// The digit of a mark, alone.
fn mask(mark: Mark) -> u8
    ensures { result ≡ 2 ^ place mark }
{
    match mark {
        Mark::Touched => TOUCHED,
        Mark::Gained => GAINED,
        Mark::Blocked => BLOCKED,
    }
}

// The marks with one of them set.
#[tactic(auto, using(crate::proofs::Each::sets))]
pub fn set(mark: Mark, m: u8) -> u8
    ensures { result ≡ marking (place mark) true m }
{
    m | mask(mark)
}

// The marks with one of them cleared.
#[tactic(auto, using(crate::proofs::Each::clears))]
pub fn clear(mark: Mark, m: u8) -> u8
    ensures { result ≡ marking (place mark) false m }
{
    m & !mask(mark)
}

// Tells whether a mark is set.
#[tactic(auto, using(crate::proofs::Each::tells))]
pub fn is_set(mark: Mark, m: u8) -> bool
    ensures { result ≡ marked (place mark) m }
{
    m & mask(mark) != 0
}
