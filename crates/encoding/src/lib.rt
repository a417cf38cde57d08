// The words of the table in the numbers of their pieces: each word's units are interned with their
// decoration, and words of two units or more become a word set.
//
// The set lies in the cells below the table of spellings, so that neither disturbs the other.
#![tactic(auto)]

ghost use Rattle.std.specs.Prelude.{◌≡◌, true, cond, [], ◌+◌, ◌/◌, ◌<◌, ◌≤◌, length};
ghost use Rattle.cells.specs.Cells.{cells};
ghost use Rattle.rfc3629.specs.Cut.{units_by};
ghost use Rattle.rule.specs.Shapes.{shaped};
ghost use Rattle.rule.specs.Table.{units};
ghost use Rattle.rule.specs.Spelling.{decorate};
ghost use Rattle.intern.specs.Spelled.{spelled};
ghost use Rattle.intern.specs.Intern.{CanIntern};
ghost use Rattle.alphabet.specs.Seeds.{CanSeed};
ghost use Rattle.word.specs.Layout.{Words};
ghost use Rattle.encoding.specs.Encoding.{decorated_units, all_decorated, Fits};
ghost use Rattle.encoding.specs.Encoding.{UnitDone, WordDone, EntryDone, WordsDone};

use cells::Ring;
use error::NoRoom;
use spells::Spelling;
use table::Table;
use text::Seeding;
use vocab::Filled;
use word::WordSet;

// Interns a unit with its decoration, and adds its number to the open word, which has n symbols.
// Stays: the rooms apart, as in intern::intern.
fn seed_unit(
    room: &mut [u8],
    w: WordSet,
    n: usize,
    ring: Ring,
    pieces: &mut [u8],
    ends: &mut [u8],
    filled: Filled,
    spelling: Spelling,
) -> Result<Filled, NoRoom>
    requires can_intern { CanIntern ring.base ring.cap filled.count filled.used (cells room.old) pieces.old ends.old }
    requires words { Words w (cells room.old) × (w.top + 2 + n < ring.base) }
    ensures { UnitDone result w n ring.base ring.cap filled.count filled.used (spelled spelling.entry)
        room.old pieces.old ends.old room.new pieces.new ends.new }
{
    let interned = intern::intern(room, ring, pieces, ends, filled, spelling)?;
    pushing::add(room, w, n, interned.number as u32);
    Ok(interned.filled)
}

// A mark where it is there, and nothing where it is not.
// Stays: a test beside a mark, no Option: a Spelling takes the empty part where no mark is (`decorate`).
fn side(there: bool, mark: &[u8]) -> &[u8]
    ensures { result.now ≡ cond there mark.now [] }
{
    if there { mark } else { &[] }
}

// How far the runs are filled now, and how many symbols a word has.
#[derive(Clone, Copy)]
struct Worded {
    filled: Filled,
    symbols: usize,
}

// Interns the units of a word, which is cut as `whole` tells, and adds their numbers to the open
// word, which has none yet.
// Stays: the rooms apart, as in intern::intern.
fn seed_word(
    room: &mut [u8],
    w: WordSet,
    ring: Ring,
    pieces: &mut [u8],
    ends: &mut [u8],
    filled: Filled,
    word: &[u8],
    whole: bool,
    t: Table,
) -> Result<Worded, NoRoom>
    requires can_seed { CanSeed ring.base ring.cap filled.count filled.used
        (decorate t.prefix.now t.suffix.now (units_by whole word.now)) (cells room.old) pieces.old ends.old }
    requires words { Words w (cells room.old) × (w.top + 2 + length (units_by whole word.now) ≤ ring.base) }
    ensures { WordDone result w ring.base ring.cap filled.count filled.used
        t.entry.prefix.now t.entry.suffix.now (units_by whole word.now)
        room.old pieces.old ends.old room.new pieces.new ends.new }
{
    let mut so_far = filled;
    let mut at = 0;
    let mut n = 0;
    while at < word.len() {
        let end = text::next_unit(word, at, whole);
        let prefix = side(n != 0, t.prefix);
        let suffix = side(end == word.len(), t.suffix);
        let spelling = Spelling {
            prefix,
            unit: &word[at..end],
            suffix,
        };
        so_far = seed_unit(room, w, n, ring, pieces, ends, so_far, spelling)?;
        at = end;
        n += 1;
    }
    Ok(Worded {
        filled: so_far,
        symbols: n,
    })
}

// How far the runs are filled now, and the words kept.
#[derive(Clone, Copy)]
pub struct Encoded {
    pub filled: Filled,
    pub words: WordSet,
}

// Interns the units of a word, and makes it a word of the set if it has two units or more.
// Stays: the rooms apart, as in intern::intern.
fn seed_entry(
    room: &mut [u8],
    so_far: Encoded,
    ring: Ring,
    pieces: &mut [u8],
    ends: &mut [u8],
    word: &[u8],
    frequency: u64,
    t: Table,
) -> Result<Encoded, NoRoom>
    requires can_seed { CanSeed ring.base ring.cap so_far.filled.count so_far.filled.used
        (decorate t.prefix.now t.suffix.now (units t.seeding word.now)) (cells room.old) pieces.old ends.old }
    requires words { Words so_far.words (cells room.old)
        × (so_far.words.top + 2 + length (units t.seeding word.now) ≤ ring.base)
        × (so_far.words.starts + so_far.words.count < so_far.words.low) }
    ensures { EntryDone result so_far.words ring.base ring.cap so_far.filled.count so_far.filled.used
        frequency t.entry.prefix.now t.entry.suffix.now (units t.entry.seeding word.now)
        room.old pieces.old ends.old room.new pieces.new ends.new }
{
    let w = so_far.words;
    pushing::open(room, w, frequency);
    let whole = text::whole(word, Seeding::from_number(t.seeding));
    let worded = seed_word(room, w, ring, pieces, ends, so_far.filled, word, whole, t)?;
    let words = pushing::push(room, w, worded.symbols);
    Ok(Encoded {
        filled: worded.filled,
        words,
    })
}

// Interns the units of all words, in word order, and makes a set of the words of two units or more.
pub fn seed_words(
    room: &mut [u8],
    set: WordSet,
    ring: Ring,
    pieces: &mut [u8],
    ends: &mut [u8],
    filled: Filled,
    t: Table,
) -> Result<Encoded, NoRoom>
    requires can_seed { CanSeed ring.base ring.cap filled.count filled.used
        (decorated_units t.seeding t.prefix.now t.suffix.now t.words.now t.word_ends.now)
        (cells room.old) pieces.old ends.old }
    requires word_ends_value { (shaped t.words.now t.word_ends.now ≡ true)
        × (length t.word_ends.now / 4 ≡ length t.frequencies.now / 8) }
    requires fits { Fits set ring.base t.seeding t.words.now t.word_ends.now (cells room.old) }
    ensures { WordsDone result set ring.base ring.cap filled.count filled.used t.entry.frequencies.now
        (all_decorated t.entry.seeding t.entry.prefix.now t.entry.suffix.now t.entry.words.now t.entry.word_ends.now)
        room.old pieces.old ends.old room.new pieces.new ends.new }
{
    let many = t.word_ends.len() / 4;
    let mut so_far = Encoded { filled, words: set };
    let mut last = 0;
    for k in 0..many {
        let end = vocab::end_at(t.word_ends, k);
        let f = numbers::load8(t.frequencies, k * 8);
        let word = &t.words[last..end];
        so_far = seed_entry(room, so_far, ring, pieces, ends, word, f, t)?;
        last = end;
    }
    Ok(so_far)
}
