// An index from keys to values in cells of a lent room, by open addressing.
//
// A slot is two cells side by side, so that a lookup that finds its key has the value at hand. A key
// of 0 is a vacant slot, a value of 0 a key that has none. A key stays in its slot for good: to
// remove it is to set its value to 0, so that a lookup may end at the first vacant slot, and a key
// that comes back takes no new one.
#![tactic(auto)]

ghost use Rattle.std.specs.Prelude.{◌≡◌, ◌<◌, ◌≤◌};
ghost use Rattle.cells.specs.Cells.{cells};
ghost use Rattle.index.specs.Index.{mix, home, slot, value, Told, Index, CanInsert, Inserted, CanErase, Erased, AtSlot, NewSlot, PutValue, PutKey};

use cells::{Found, Ring};

// A key's hash, by its two halves, but for its lowest six digits. The factors are fractions of 2^32
// whose multiples and sums of multiples lie evenly between 0 and 1, so that keys with small halves
// share few slots.
fn hash(key: u64) -> u64
    ensures { (result ≡ mix key) × (result < 4294967296) }
{
    (key / 4294967296 * 1847521883 + key % 4294967296 / 64 * 1052792407) % 4294967296
}

// The slot where the search for a key starts. The hash is taken as a fraction of 2^32, since a
// division by `cap` is slow; from there on the lowest six digits tell, so that keys that follow each
// other, such as the pairs of one symbol, lie side by side in memory.
fn start(cap: usize, key: u64) -> usize
    requires { (0 < cap) × (cap ≤ 4294967296) }
    ensures { (result ≡ home cap key) × (result < cap) }
{
    let h = hash(key);
    let row = (h * (cap as u64) / 4294967296) as usize;
    let s = row + (key % 64) as usize;
    if s < cap { s } else { row }
}

// Where a key is, or would go. At most `cap` slots are looked at.
fn find(room: &[u8], ring: Ring, key: u64) -> Found
    requires { Index ring.base ring.cap (cells room.now) }
    ensures { result ≡ slot ring.base ring.cap (cells room.now) key }
{
    let mut i = start(ring.cap, key);
    for _ in 0..ring.cap {
        let x = cells::cell(room, ring.base + 2 * i);
        if x == key {
            return Found::At(i);
        }
        if x == 0 {
            return Found::Vacant(i);
        }
        i = cells::next(ring.cap, i);
    }
    Found::Full
}

// What the value in the key's slot says.
// Stays: 0 for none in a cell (`value`): a slot is fixed memory and has no cell for a tag.
fn value_in(room: &[u8], ring: Ring, key: u64, j: usize) -> Option<u64>
    requires { AtSlot ring.base ring.cap key j (cells room.now) }
    ensures { Told (value ring.base ring.cap (cells room.now) key) result }
{
    let v = cells::cell(room, ring.base + 2 * j + 1);
    if v == 0 { None } else { Some(v) }
}

// Puts a value in the key's slot.
fn put_value(room: &mut [u8], ring: Ring, key: u64, j: usize, v: u64)
    requires { (AtSlot ring.base ring.cap key j (cells room.old)) × (0 < key) }
    ensures { PutValue ring.base ring.cap key v (cells room.old) (cells room.new) }
{
    cells::put_cell(room, ring.base + 2 * j + 1, v);
}

// Puts the key in the vacant slot where it goes.
fn put_key(room: &mut [u8], ring: Ring, key: u64, j: usize)
    requires { NewSlot ring.base ring.cap key j (cells room.old) }
    ensures { PutKey ring.base ring.cap key j (cells room.old) (cells room.new) }
{
    cells::put_cell(room, ring.base + 2 * j, key);
}

// The value of a key, where it has one.
pub fn get(room: &[u8], ring: Ring, key: u64) -> Option<u64>
    requires { Index ring.base ring.cap (cells room.now) }
    ensures { Told (value ring.base ring.cap (cells room.now) key) result }
{
    match find(room, ring, key) {
        Found::At(j) => value_in(room, ring, key, j),
        Found::Vacant(_) => None,
        Found::Full => None,
    }
}

// Gives a key that has no value one. A vacant slot is asked for even where the key has a slot: then
// a client counts its inserts, and need not know which keys came before.
pub fn insert(room: &mut [u8], ring: Ring, key: u64, v: u64)
    requires { CanInsert ring.base ring.cap key v (cells room.old) }
    ensures { Inserted ring.base ring.cap key v (cells room.old) (cells room.new) }
{
    match find(room, ring, key) {
        Found::At(j) => put_value(room, ring, key, j, v),
        Found::Vacant(j) => {
            put_key(room, ring, key, j);
            put_value(room, ring, key, j, v);
        }
        Found::Full => {}
    }
}

// Takes a key's value away.
pub fn erase(room: &mut [u8], ring: Ring, key: u64)
    requires { CanErase ring.base ring.cap key (cells room.old) }
    ensures { Erased ring.base ring.cap key (cells room.old) (cells room.new) }
{
    match find(room, ring, key) {
        Found::At(j) => put_value(room, ring, key, j, 0),
        Found::Vacant(_) => {}
        Found::Full => {}
    }
}
