// Interning: "a spelling already present gets its existing number", any other the next.
//
// The pieces stand end to end in one run, their ends in another, and an open table from spelling to
// number stands in cells of the work room. A slot is 0, vacant, or a piece: its number + 1 in the low
// half of the cell, its hash in the high half. A spelling comes as prefix, unit and suffix, each of
// which may be empty: nothing is copied for one that is known, and no byte behind the used ones is
// touched but by a new piece.
#![tactic(auto)]

ghost use Rattle.std.specs.Prelude.{◌≡◌, ◌+◌, ◌*◌, ◌%◌, ◌<◌, ◌≤◌, length, leb};
ghost use Rattle.cells.specs.Cells.{cells};
ghost use Rattle.intern.specs.Pieces.{Held};
ghost use Rattle.intern.specs.Spelled.{spelled};
ghost use Rattle.intern.specs.Intern.{spelt, look, Pieces, CanIntern, CanAdd, Answer};

use cells::{Found, Ring};
use error::NoRoom;
use spells::Spelling;
use vocab::Filled;

// The end of a piece has 4 bytes.
const LONGEST: usize = 4294967295;

// Tells whether the piece of the slot x has this spelling. Bytes are compared only where the hash
// agrees.
fn is_spelled(
    x: u64,
    hash: u64,
    pieces: &[u8],
    ends: &[u8],
    filled: Filled,
    spelling: Spelling,
) -> bool
    requires { (Held filled.count filled.used pieces.now ends.now)
        × (0 < x % 4294967296) × (x % 4294967296 ≤ filled.count) }
    ensures { result ≡ spelt hash (spelled spelling.entry) pieces.now ends.now x }
{
    if x / 4294967296 != hash {
        return false;
    }
    let k = (x % 4294967296 - 1) as usize;
    let from = vocab::piece_start(ends, k);
    let to = vocab::piece_start(ends, k + 1);
    spells::equal_three(spelling, &pieces[from..to])
}

// Which piece has this spelling. Each slot is looked at once at most.
fn find(
    room: &[u8],
    ring: Ring,
    pieces: &[u8],
    ends: &[u8],
    filled: Filled,
    spelling: Spelling,
) -> Found
    requires { Pieces ring.base ring.cap filled.count filled.used (cells room.now) pieces.now ends.now }
    ensures { result ≡ look ring.base ring.cap (cells room.now) pieces.now ends.now (spelled spelling.entry) }
{
    let hash = spells::hash_three(spelling);
    let mut i = (hash % (ring.cap as u64)) as usize;
    for _ in 0..ring.cap {
        let x = cells::cell(room, ring.base + i);
        if x == 0 {
            return Found::Vacant(i);
        }
        if is_spelled(x, hash, pieces, ends, filled, spelling) {
            return Found::At((x % 4294967296 - 1) as usize);
        }
        i = cells::next(ring.cap, i);
    }
    Found::Full
}

// Tells whether a spelling fits `left` bytes, with no sum that could wrap.
fn fits(left: usize, spelling: Spelling) -> bool
    ensures { result ≡ leb (length spelling.entry.prefix.now
        + (length spelling.entry.unit.now + length spelling.entry.suffix.now)) left }
{
    let Spelling {
        prefix,
        unit,
        suffix,
    } = spelling;
    prefix.len() <= left
        && unit.len() <= left - prefix.len()
        && suffix.len() <= left - prefix.len() - unit.len()
}

// A spelling's number, and how far the runs are filled now.
#[derive(Clone, Copy)]
pub struct Interned {
    pub number: usize,
    pub filled: Filled,
}

// Puts a spelling that is new behind the others, and its number in the vacant slot. It has no room
// where the ends room, the piece room or the 4 bytes of an end have none.
fn add(
    room: &mut [u8],
    ring: Ring,
    pieces: &mut [u8],
    ends: &mut [u8],
    filled: Filled,
    spelling: Spelling,
    slot: usize,
) -> Result<Interned, NoRoom>
    requires { CanAdd ring.base ring.cap filled.count filled.used (spelled spelling) slot
        (cells room.old) pieces.old ends.old }
    ensures { Answer result ring.base ring.cap filled.count filled.used (spelled spelling.entry)
        room.old pieces.old ends.old room.new pieces.new ends.new }
{
    let Filled { count, used } = filled;
    if ends.len() / 4 <= count {
        return Err(NoRoom);
    }
    if !fits(pieces.len() - used, spelling) {
        return Err(NoRoom);
    }
    if !fits(LONGEST - used, spelling) {
        return Err(NoRoom);
    }
    let hash = spells::hash_three(spelling);
    let end = spelling::decorate(pieces, used, spelling);
    numbers::store4(ends, count * 4, end as u32);
    let x = hash * 4294967296 + ((count + 1) as u64);
    cells::put_cell(room, ring.base + slot, x);
    Ok(Interned {
        number: count,
        filled: Filled {
            count: count + 1,
            used: end,
        },
    })
}

// Gives the spelling a number, or the one it already has.
// Stays: the rooms apart: the words and the heap lie in the same room, written between two internings.
pub fn intern(
    room: &mut [u8],
    ring: Ring,
    pieces: &mut [u8],
    ends: &mut [u8],
    filled: Filled,
    spelling: Spelling,
) -> Result<Interned, NoRoom>
    requires { CanIntern ring.base ring.cap filled.count filled.used (cells room.old) pieces.old ends.old }
    ensures { Answer result ring.base ring.cap filled.count filled.used (spelled spelling.entry)
        room.old pieces.old ends.old room.new pieces.new ends.new }
{
    match find(room, ring, pieces, ends, filled, spelling) {
        Found::At(number) => Ok(Interned { number, filled }),
        Found::Vacant(slot) => add(room, ring, pieces, ends, filled, spelling, slot),
        Found::Full => Err(NoRoom),
    }
}
