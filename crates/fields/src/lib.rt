// What is known of a pair, field by field: its record's key, its count, its marks.
#![tactic(auto)]

ghost use Rattle.std.specs.Prelude.{◌≡◌, ◌<◌};
ghost use Rattle.cells.specs.Cells.{cells};
ghost use Rattle.records.specs.Records.{field, Within, CanPut, FieldPut};
ghost use Rattle.pairs.specs.View.{arena_at, key_in, state};
ghost use Rattle.pairs.specs.Pairs.{Pairing, Has, Updated};

use pairs::{Pair, Pairs};

// The fields of a record by number: its key, its count, its marks, how many words it has.
const KEY: usize = 0;

const COUNT: usize = 1;

const MARKS: usize = 2;

pub const MANY: usize = 3;

// The first word of a short list, of a longer one the place of its run; and that run's capacity.
pub const FIRST: usize = 4;

pub const PLACE: usize = 4;

pub const CAPACITY: usize = 5;

// A field of a record that was taken.
pub fn get(room: &[u8], p: Pairs, r: usize, f: usize) -> u64
    requires { Within (arena_at p) p.most r f (cells room.now) }
    ensures { result ≡ field (arena_at p) (cells room.now) r f }
{
    records::get_field(room, p.arena(), r, f)
}

// Puts v in a field of a live record, but not in its key.
pub fn put(room: &mut [u8], p: Pairs, r: usize, f: usize, v: u64)
    requires { CanPut (arena_at p) p.most r f (cells room.old) }
    ensures { FieldPut (arena_at p) p.most r f v (cells room.old) (cells room.new) }
{
    records::put_field(room, p.arena(), r, f, v);
}

// The key of a record.
pub fn key_of(room: &[u8], p: Pairs, r: usize) -> u64
    requires { (Pairing p (cells room.now)) × (0 < key_in p (cells room.now) r) }
    ensures { result ≡ key_in p (cells room.now) r }
{
    get(room, p, r, KEY)
}

// The count of a pair that has a record.
pub fn count(room: &[u8], pair: Pair) -> u64
    requires { Has pair.pairs pair.key pair.number (cells room.now) }
    ensures { result ≡ (state pair.pairs (cells room.now) pair.key).count }
{
    get(room, pair.pairs, pair.number, COUNT)
}

// Its marks.
pub fn marks(room: &[u8], pair: Pair) -> u8
    requires { Has pair.pairs pair.key pair.number (cells room.now) }
    ensures { result ≡ (state pair.pairs (cells room.now) pair.key).marks }
{
    (get(room, pair.pairs, pair.number, MARKS) % 256) as u8
}

// Sets its count.
pub fn set_count(room: &mut [u8], pair: Pair, v: u64)
    requires { Has pair.pairs pair.key pair.number (cells room.old) }
    ensures { Updated pair.pairs pair.key pair.number (record (state pair.pairs (cells room.old) pair.key) { count = v })
        (cells room.old) (cells room.new) }
{
    put(room, pair.pairs, pair.number, COUNT, v);
}

// Sets its marks.
pub fn set_marks(room: &mut [u8], pair: Pair, v: u8)
    requires { Has pair.pairs pair.key pair.number (cells room.old) }
    ensures { Updated pair.pairs pair.key pair.number (record (state pair.pairs (cells room.old) pair.key) { marks = v })
        (cells room.old) (cells room.new) }
{
    put(room, pair.pairs, pair.number, MARKS, v as u64);
}
