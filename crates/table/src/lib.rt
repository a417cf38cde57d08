// The refusals 1 to 7 of training: what a word table and its settings are refused for before any
// room is written.
//
// Every function here only reads, and any runs and any numbers have an answer: no end is trusted
// before all of them are tested, and the weight stops at the number that is refused, so that
// nothing wraps.
#![tactic(auto)]

ghost use Rattle.std.specs.Prelude.{◌≡◌, true, ◌-◌, ◌/◌, ◌^◌, ◌<◌, ◌≤◌, length};
ghost use Rattle.runs.specs.Parts.{nth, part};
ghost use Rattle.numbers.specs.Little.{numbers};
ghost use Rattle.rule.specs.Shapes.{shaped, below};
ghost use Rattle.rule.specs.Table.{room_for};
ghost use Rattle.rule.specs.Refusals.{bad_shape, too_many, no_frequency, misplaced};
ghost use Rattle.table.specs.Weighing.{Heavier, IsWeighed};
ghost use Rattle.table.specs.Answers.{first_place, words_answer, table_answer};

use error::TrainError;
use text::Seeding;

// A word table as it is lent: the words end to end and where each ends, 4 bytes each; how often each occurs,
// 8 bytes each; the initial alphabet like the words; the marks of a unit's place; and 0 for Bytes or 1 for
// Chars. Any runs and any number have an answer.
#[derive(Clone, Copy)]
pub struct Table<'a> {
    pub words: &'a [u8],
    pub word_ends: &'a [u8],
    pub frequencies: &'a [u8],
    pub alphabet: &'a [u8],
    pub alphabet_ends: &'a [u8],
    pub prefix: &'a [u8],
    pub suffix: &'a [u8],
    // Stays: the seeding as a number, as C hands it over: every number has an answer (`bad_shape`).
    pub seeding: u64,
}

// How far training goes: how many pieces are asked for, the least count of a pair that is merged, and the
// most bytes of a piece that a merge makes.
#[derive(Clone, Copy)]
pub struct Settings {
    pub vocab_size: u64,
    pub min_frequency: u64,
    pub max_piece_length: u64,
}

// The limits of row 2.
const MOST_WORDS: usize = 16777216;

const MOST_PIECES: u64 = 16777216;

const MOST_WORD_BYTES: usize = 268435456;

const MOST_SYMBOLS: usize = 65536;

const MOST_SYMBOL_BYTES: usize = 1048576;

const MOST_AFFIX_BYTES: usize = 255;

// The least weight that row 6 refuses: 2^53.
const TOO_HEAVY: u64 = 9007199254740992;

// The i-th frequency.
#[tactic(auto, using(vocab::proofs::Places::number_load))]
fn frequency_at(frequencies: &[u8], i: usize) -> u64
    requires { i < length frequencies.now / 8 }
    ensures { result ≡ nth (numbers 8 frequencies.now) i }
{
    numbers::load8(frequencies, i * 8)
}

// Row 1: the runs do not make a table and an alphabet, or the seeding is neither Bytes nor Chars.
fn bad_shape(t: Table) -> bool
    ensures { result ≡ bad_shape t.entry.words.now t.entry.word_ends.now t.entry.frequencies.now
        t.entry.alphabet.now t.entry.alphabet_ends.now t.entry.seeding }
{
    if 1 < t.seeding {
        return true;
    }
    if t.frequencies.len() % 8 != 0 {
        return true;
    }
    if t.word_ends.len() / 4 != t.frequencies.len() / 8 {
        return true;
    }
    if !vocab::is_shaped(t.words, t.word_ends) {
        return true;
    }
    !vocab::is_shaped(t.alphabet, t.alphabet_ends)
}

// Row 2: a number is over its limit.
#[tactic(auto, using(crate::proofs::Rows::many_rules))]
fn too_many(t: Table, vocab_size: u64) -> bool
    ensures { result ≡ too_many (length t.entry.word_ends.now / 4) vocab_size (length t.entry.words.now)
        (length t.entry.alphabet_ends.now / 4) (length t.entry.alphabet.now) (length t.entry.prefix.now)
        (length t.entry.suffix.now) }
{
    if MOST_WORDS < t.word_ends.len() / 4 {
        return true;
    }
    if MOST_PIECES < vocab_size {
        return true;
    }
    if MOST_WORD_BYTES < t.words.len() {
        return true;
    }
    if MOST_SYMBOLS < t.alphabet_ends.len() / 4 {
        return true;
    }
    if MOST_SYMBOL_BYTES < t.alphabet.len() {
        return true;
    }
    if MOST_AFFIX_BYTES < t.prefix.len() {
        return true;
    }
    MOST_AFFIX_BYTES < t.suffix.len()
}

// Row 4: the first frequency that is 0.
#[tactic(auto, using(crate::proofs::Rows::zero_rules))]
fn first_zero(frequencies: &[u8]) -> Option<usize>
    ensures { result ≡ first_place (no_frequency frequencies.now) }
{
    for i in 0..frequencies.len() / 8 {
        if frequency_at(frequencies, i) == 0 {
            return Some(i);
        }
    }
    None
}

// Tells whether the word from `from` to `to` is below the one from there to `end`.
// Stays: by places, as order::compare_within takes two parts: nothing else calls it.
#[tactic(auto, using(crate::proofs::Order::below_lent))]
fn goes_up(words: &[u8], from: usize, to: usize, end: usize) -> bool
    requires { (from ≤ to) × (to ≤ end) × (end ≤ length words.now) }
    ensures { result ≡ below (part from (to - from) words.now) (part to (end - to) words.now) }
{
    order::compare_within(words, from, to - from, to, end - to).is_lt()
}

// Row 5: the first word that is not above the one before it.
#[tactic(auto, using(crate::proofs::Order::low_rules))]
fn first_low(words: &[u8], ends: &[u8]) -> Option<usize>
    requires { (0 < length ends.now / 4) × (shaped words.now ends.now ≡ true) }
    ensures { result ≡ first_place (misplaced words.now ends.now) }
{
    let mut from = 0;
    let mut to = vocab::end_at(ends, 0);
    for k in 1..ends.len() / 4 {
        let end = vocab::end_at(ends, k);
        if !goes_up(words, from, to, end) {
            return Some(k);
        }
        from = to;
        to = end;
    }
    None
}

// A weight with one word more, up to the number that is too heavy.
#[tactic(auto, using(crate::proofs::Weighing::heavier_rules))]
fn heavier(weight: u64, frequency: u64, units: u64) -> u64
    requires { weight ≤ 2 ^ 53 }
    ensures { Heavier weight frequency units result }
{
    if units == 0 {
        return weight;
    }
    if (TOO_HEAVY - weight) / units < frequency {
        return TOO_HEAVY;
    }
    weight + frequency * units
}

// What a pass over the words finds: their weight, up to the number that is too heavy, and their
// units.
// Stays: the weight stops at the number that row 6 refuses (`Heavier`), the units are counted to the end.
#[derive(Clone, Copy)]
struct Weighed {
    weight: u64,
    units: u64,
}

// Row 6, and the units of all words.
fn weigh(t: Table) -> Weighed
    requires { (length t.word_ends.now / 4 ≡ length t.frequencies.now / 8)
        × (shaped t.words.now t.word_ends.now ≡ true) }
    ensures { IsWeighed t.entry.seeding t.entry.words.now t.entry.word_ends.now t.entry.frequencies.now
        result.weight result.units }
{
    let kind = Seeding::from_number(t.seeding);
    let mut last = 0;
    let mut weight = 0;
    let mut units = 0;
    for n in 0..t.word_ends.len() / 4 {
        let end = vocab::end_at(t.word_ends, n);
        let f = frequency_at(t.frequencies, n);
        let u = text::count_units(&t.words[last..end], kind) as u64;
        weight = heavier(weight, f, u);
        units += u;
        last = end;
    }
    Weighed { weight, units }
}

// Row 7: the bytes that the work room must have.
#[tactic(auto, unfolding(rule::specs::Table::room_for))]
fn room_needed(units: u64, symbols: usize) -> u64
    requires { (units ≤ 268435456) × (symbols ≤ 65536) }
    ensures { result ≡ room_for units symbols }
{
    512 * (units + symbols as u64) + 32768
}

// Rows 3 to 7, of a table that rows 1 and 2 do not refuse: the units of all words, or why it is refused.
fn judge_words(t: Table, room: usize) -> Result<u64, TrainError>
    requires { (length t.word_ends.now / 4 ≡ length t.frequencies.now / 8)
        × (shaped t.words.now t.word_ends.now ≡ true)
        × (length t.words.now ≤ 268435456) × (length t.alphabet_ends.now / 4 ≤ 65536) }
    ensures { result ≡ words_answer t.entry.words.now t.entry.word_ends.now t.entry.frequencies.now
        t.entry.seeding (length t.entry.alphabet_ends.now / 4) room }
{
    if t.word_ends.len() / 4 == 0 {
        return Err(TrainError::EmptyCorpus);
    }
    if let Some(zero) = first_zero(t.frequencies) {
        return Err(TrainError::ZeroFrequency { word: zero as u64 });
    }
    if let Some(low) = first_low(t.words, t.word_ends) {
        return Err(TrainError::OutOfOrder { word: low as u64 });
    }
    let found = weigh(t);
    if TOO_HEAVY <= found.weight {
        return Err(TrainError::TooHeavy);
    }
    let needed = room_needed(found.units, t.alphabet_ends.len() / 4);
    if (room as u64) < needed {
        return Err(TrainError::WorkRoom { needed });
    }
    Ok(found.units)
}

// What rows 1 to 7 come to, in their order: the units of all words, or why the table and its settings are
// refused.
pub fn judge(t: Table, vocab_size: u64, room: usize) -> Result<u64, TrainError>
    ensures { result ≡ table_answer t.entry.words.now t.entry.word_ends.now t.entry.frequencies.now
        t.entry.alphabet.now t.entry.alphabet_ends.now t.entry.prefix.now t.entry.suffix.now t.entry.seeding
        vocab_size room }
{
    if bad_shape(t) {
        return Err(TrainError::BadShape);
    }
    if too_many(t, vocab_size) {
        return Err(TrainError::TooMany);
    }
    judge_words(t, room)
}
