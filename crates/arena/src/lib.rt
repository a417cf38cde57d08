// Records taken for a key and given back: `StateArena` of the original. One that was given back is
// taken before a new one.
#![tactic(auto)]

ghost use Rattle.cells.specs.Cells.{cells};
ghost use Rattle.records.specs.Records.{Live};
ghost use Rattle.arena.specs.Claims.{CanClaim, Claimed, Released, Alloc, CanNew, CanFree, CanRelease, CanDrop, Blank};

use records::Arena;

// The fields of a record by number: its key; and of one that was given back, where the next of these
// stands, and how many there are from it on.
const KEY: usize = 0;

const NEXT: usize = 1;

const DEPTH: usize = 2;

// Takes the first record that was never taken.
fn claim_new(room: &mut [u8], a: Arena, key: u64) -> usize
    requires { CanNew a.base a.most key (cells room.old) }
    ensures { Claimed a.base a.most key result (cells room.old) (cells room.new) }
{
    let x = cells::cell(room, a.base) as usize;
    cells::put_cell(room, a.base, (x + 1) as u64);
    records::store(room, a, x, KEY, key);
    x
}

// Takes the record that was given back last.
// Stays: a number + 1, or 0 for none, in a cell: fixed memory has no cell for a tag.
fn claim_free(room: &mut [u8], a: Arena, key: u64) -> usize
    requires { CanFree a.base a.most key (cells room.old) }
    ensures { Claimed a.base a.most key result (cells room.old) (cells room.new) }
{
    let h = cells::cell(room, a.base + 1) as usize;
    let c = cells::cell(room, a.base + 2);
    let r = h - 1;
    let l = records::get_field(room, a, r, NEXT);
    cells::put_cell(room, a.base + 1, l);
    cells::put_cell(room, a.base + 2, c - 1);
    records::store(room, a, r, KEY, key);
    r
}

// Takes a record for a key.
fn claim(room: &mut [u8], a: Arena, key: u64) -> usize
    requires { CanClaim a.base a.most key (cells room.old) }
    ensures { Claimed a.base a.most key result (cells room.old) (cells room.new) }
{
    let c = cells::cell(room, a.base + 2);
    if c == 0 {
        return claim_new(room, a, key);
    }
    claim_free(room, a, key)
}

// Empties a record: no count, no marks, no words.
fn blank(room: &mut [u8], a: Arena, r: usize)
    requires { Live a.base a.most r (cells room.old) }
    ensures { Blank a.base a.most r (cells room.old) (cells room.new) }
{
    records::put_field(room, a, r, 1, 0);
    records::put_field(room, a, r, 2, 0);
    records::put_field(room, a, r, 3, 0);
}

// Takes a record for a key, blank.
pub fn alloc(room: &mut [u8], a: Arena, key: u64) -> usize
    requires { CanClaim a.base a.most key (cells room.old) }
    ensures { Alloc a.base a.most key result (cells room.old) (cells room.new) }
{
    let r = claim(room, a, key);
    blank(room, a, r);
    r
}

// Takes the key out of a record whose link is set, and puts the record before the others that are free.
fn drop_key(room: &mut [u8], a: Arena, r: usize)
    requires { CanDrop a.base a.most r (cells room.old) }
    ensures { Released a.base a.most r (cells room.old) (cells room.new) }
{
    let c = cells::cell(room, a.base + 2) as usize;
    records::store(room, a, r, KEY, 0);
    cells::put_cell(room, a.base + 1, (r + 1) as u64);
    cells::put_cell(room, a.base + 2, (c + 1) as u64);
}

// Gives a record back.
pub fn release(room: &mut [u8], a: Arena, r: usize)
    requires { CanRelease a.base a.most r (cells room.old) }
    ensures { Released a.base a.most r (cells room.old) (cells room.new) }
{
    let h = cells::cell(room, a.base + 1);
    let c = cells::cell(room, a.base + 2) as usize;
    records::put_field(room, a, r, NEXT, h);
    records::put_field(room, a, r, DEPTH, (c + 1) as u64);
    drop_key(room, a, r);
}
