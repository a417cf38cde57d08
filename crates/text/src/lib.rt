// Text: how a word is cut into the units that training starts from.
//
// What a character is, `chars` says. Under Chars a well-formed word is cut into its characters and any
// other word into bytes as a whole, so `whole` is asked once of a word, before its first unit is handed
// out, and its answer goes with each `next_unit`. Every sequence of bytes gets an answer, and each
// function goes over a word once.
#![tactic(auto)]

ghost use Rattle.std.specs.Prelude.{◌≡◌, ◌&&◌, ◌+◌, ◌-◌, ◌≤◌, ◌<◌, length};
ghost use Rattle.runs.specs.Parts.{part};
ghost use Rattle.rfc3629.specs.Cut.{well_formed, cut};
ghost use Rattle.rule.specs.Table.{chars};
ghost use Rattle.text.specs.Units.{by_chars, chars_in, Next, Counted};

// What the units of a word are: its bytes, or the characters of a well-formed word.
#[derive(Clone, Copy)]
pub enum Seeding {
    Bytes,
    Chars,
}

impl Seeding {
    // The seeding of a setting: 1 is Chars. That the setting is 0 or 1 is not asked here: the table's
    // shape rules refuse any other.
    // Stays: no TryFrom: it cannot fail, and its clause has an answer for every number (`chars`).
    #[tactic(auto, using(crate::proofs::Loops::seeding_rules))]
    pub fn from_number(number: u64) -> Seeding
        ensures { by_chars result ≡ chars number }
    {
        if number == 1 {
            return Seeding::Chars;
        }
        Seeding::Bytes
    }
}

// How many characters a word is, if it is characters from its start to its end.
fn chars_in(word: &[u8]) -> Option<usize>
    ensures { result ≡ chars_in word.now }
{
    let mut i = 0;
    let mut n = 0;
    while i < word.len() {
        i += chars::char_len(word, i)?;
        n += 1;
    }
    Some(n)
}

// Tells whether a word is cut into characters.
#[tactic(auto, using(crate::proofs::Loops::whole_rules))]
pub fn whole(word: &[u8], seeding: Seeding) -> bool
    ensures { result ≡ (by_chars seeding && well_formed word.now) }
{
    match seeding {
        Seeding::Bytes => false,
        Seeding::Chars => chars_in(word).is_some(),
    }
}

// How many units a word has.
pub fn count_units(word: &[u8], seeding: Seeding) -> usize
    ensures { Counted (by_chars seeding) word.now result }
{
    match seeding {
        Seeding::Bytes => word.len(),
        Seeding::Chars => chars_in(word).unwrap_or(word.len()),
    }
}

// Where the unit at `at` ends, in a word that is cut as `whole` told of it.
// Stays: a cursor that is told `whole`: callers ask where a unit begins and ends, an iterator tells one.
pub fn next_unit(word: &[u8], at: usize, whole: bool) -> usize
    requires { at < length word.now }
    ensures { Next whole word.now at (length word.now) result }
{
    if !whole {
        return at + 1;
    }
    match chars::char_len(word, at) {
        Some(k) => at + k,
        None => at + 1,
    }
}
