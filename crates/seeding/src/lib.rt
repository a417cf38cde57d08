// Seeding: the pieces before the first merge, and the words in their numbers.
//
// The seeds that come first are counted before any is interned, so that the table of spellings has
// its size from the start. What has no place is told once it is known, and the rooms are then left
// to the caller to clear.
#![tactic(auto)]

ghost use Rattle.std.specs.Prelude.{◌≡◌, true};
ghost use Rattle.runs.specs.Parts.{Bytes};
ghost use Rattle.cells.specs.Cells.{cells};
ghost use Rattle.rule.specs.Shapes.{parts_by};
ghost use Rattle.rule.specs.Table.{chars, units_of};
ghost use Rattle.rule.specs.Seeding.{first_seeds};
ghost use Rattle.encoding.specs.Encoding.{all_decorated};
ghost use Rattle.seeding.specs.Seeding.{lent, CanSeed, SeedDone};
ghost use Rattle.seeding.specs.Seeding.{Counting, Counted, CanBegin, FirstDone, CanGoOn, RestDone};

use cells::Ring;
use encoding::Encoded;
use error::NoRoom;
use table::Table;
use text::Seeding;
use vocab::Filled;

// The byte values.
const BYTE_VALUES: usize = 256;

// Puts the distinct units in order behind the words, and says how many they are.
fn gather_units(
    room: &mut [u8],
    words: &[u8],
    word_ends: &[u8],
    seeding: u64,
    units: usize,
) -> usize
    requires counting { Counting seeding units words.now word_ends.now room.old }
    requires seeding_value { chars seeding ≡ true }
    ensures { Counted seeding units words.now word_ends.now (cells room.new) result }
{
    let ring = Ring {
        base: layout::table_at(units),
        cap: layout::slots_for(units),
    };
    cells::clear_cells(room, ring.base, 2 * ring.cap);
    let heap = layout::units_at(units);
    units::gather(room, heap, ring, words, word_ends, seeding)
}

// How many seeds come first. Under Chars they then stand in order behind the words.
// Stays: words, ends and seeding apart. Tried: of runs within a Table the proof did not know that they are bytes.
fn count_first(room: &mut [u8], words: &[u8], word_ends: &[u8], seeding: u64, units: usize) -> usize
    requires { Counting seeding units words.now word_ends.now room.old }
    ensures counted { Counted seeding units words.now word_ends.now (cells room.new) result }
    ensures bytes { Bytes words.now }
{
    match Seeding::from_number(seeding) {
        Seeding::Bytes => BYTE_VALUES,
        Seeding::Chars => gather_units(room, words, word_ends, seeding, units),
    }
}

// Interns the seeds that come first: the byte values, or the distinct units in byte order.
// Stays: the rooms apart, as in intern::intern.
fn seed_first(
    room: &mut [u8],
    ring: Ring,
    pieces: &mut [u8],
    ends: &mut [u8],
    first: usize,
    t: Table,
    units: usize,
) -> Result<Filled, NoRoom>
    requires { CanBegin t.seeding units ring.base ring.cap first t.words.now t.word_ends.now
        (cells room.old) pieces.old ends.old }
    ensures { FirstDone result ring.base ring.cap
        (first_seeds t.entry.seeding (units_of t.entry.seeding t.entry.words.now t.entry.word_ends.now))
        pieces.old ends.old (cells room.new) pieces.new ends.new }
{
    match Seeding::from_number(t.seeding) {
        Seeding::Bytes => alphabet::seed_bytes(room, ring, pieces, ends),
        Seeding::Chars => {
            let heap = layout::units_at(units);
            units::drain(room, heap, first, ring, pieces, ends)
        }
    }
}

// Interns the initial alphabet and the words' decorated units, and makes the words a set.
fn seed_rest(
    room: &mut [u8],
    ring: Ring,
    pieces: &mut [u8],
    ends: &mut [u8],
    filled: Filled,
    t: Table,
    units: usize,
) -> Result<Encoded, NoRoom>
    requires { CanGoOn ring.base ring.cap filled.count filled.used units t.seeding t.words.now t.word_ends.now
        t.frequencies.now t.alphabet.now t.alphabet_ends.now t.prefix.now t.suffix.now
        room.old pieces.old ends.old }
    ensures { RestDone result ring.base ring.cap filled.count filled.used units
        (parts_by t.entry.alphabet.now t.entry.alphabet_ends.now)
        (all_decorated t.entry.seeding t.entry.prefix.now t.entry.suffix.now t.entry.words.now t.entry.word_ends.now)
        t.entry.frequencies.now pieces.old ends.old (cells room.new) pieces.new ends.new }
{
    let more = alphabet::seed_alphabet(
        room,
        ring,
        pieces,
        ends,
        filled,
        t.alphabet,
        t.alphabet_ends,
    )?;
    let set = pushing::empty(0, layout::words_at(units));
    encoding::seed_words(room, set, ring, pieces, ends, more, t)
}

// The seed pieces in the piece room and their ends, and the words expressed in them.
pub fn seed(
    room: &mut [u8],
    pieces: &mut [u8],
    ends: &mut [u8],
    t: Table,
    units: usize,
) -> Result<Encoded, NoRoom>
    requires { CanSeed (lent t) units room.old }
    ensures { SeedDone result (lent t.entry) units pieces.old ends.old (cells room.new) pieces.new ends.new }
{
    let base = layout::table_at(units);
    let first = count_first(room, t.words, t.word_ends, t.seeding, units);
    let cap = layout::spellings_for(first, t.alphabet_ends.len() / 4);
    cells::clear_cells(room, base, cap);
    let ring = Ring { base, cap };
    let filled = seed_first(room, ring, pieces, ends, first, t, units)?;
    seed_rest(room, ring, pieces, ends, filled, t, units)
}
