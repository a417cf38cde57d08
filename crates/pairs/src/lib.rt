// The pairs and what is known of each: `Pairs` of the original. An index of keys, records behind it, the long
// lists of words behind these. A pair is its key, left * 2^32 + right + 1.
#![tactic(auto)]

ghost use Rattle.std.specs.Prelude.{◌≡◌, ◌+◌, ◌*◌, ◌^◌, ◌<◌, MatchOption};
ghost use Rattle.cells.specs.Cells.{cells};
ghost use Rattle.pairs.specs.View.{arena_at, lists_at, data_at, behind, record_of, made};
ghost use Rattle.pairs.specs.Pairs.{Pairing, CanEnter, Entered, Asked, CanMake, Made, Removed};

use cells::Ring;
use records::Arena;

// The index has `cap` slots from the cell `base` on; there is place for `most` records.
// Stays: base and cap as two fields: where the parts lie goes by them (`arena_at`, `lists_at`, `behind`).
#[derive(Clone, Copy)]
pub struct Pairs {
    pub base: usize,
    pub cap: usize,
    pub most: usize,
}

// A pair that has a record: its key, and the number of the record, where what is known of it stands.
#[derive(Clone, Copy)]
pub struct Pair {
    pub pairs: Pairs,
    pub key: u64,
    pub number: usize,
}

// Where the parts stand.
impl Pairs {
    // The index.
    fn index(self) -> Ring
        ensures { result ≡ record { base = self.base; cap = self.cap } }
    {
        Ring {
            base: self.base,
            cap: self.cap,
        }
    }

    // The records.
    pub fn records(self) -> usize
        requires { arena_at self < 2 ^ 64 }
        ensures { result ≡ arena_at self }
    {
        self.base + 2 * self.cap
    }

    // The records, as many as there is place for.
    pub fn arena(self) -> Arena
        requires { arena_at self < 2 ^ 64 }
        ensures { result ≡ record { base = arena_at self; most = self.most } }
    {
        Arena {
            base: self.records(),
            most: self.most,
        }
    }

    // Two cells for the long lists: how many cells of theirs are used, and how many times a record was asked for.
    pub fn lists(self) -> usize
        requires { lists_at self < 2 ^ 64 }
        ensures { result ≡ lists_at self }
    {
        self.records() + 3 + 8 * self.most
    }

    // The words of the long lists.
    pub fn words(self) -> usize
        requires { data_at self < 2 ^ 64 }
        ensures { result ≡ data_at self }
    {
        self.lists() + 2
    }

    // The list of the pairs that a merge touched.
    pub fn touched(self) -> usize
        requires { behind self < 2 ^ 64 }
        ensures { result ≡ behind self }
    {
        self.words() + 4 * self.most
    }

    // What lies behind all of them.
    pub fn end(self) -> usize
        requires { behind self + 2 * self.most < 2 ^ 64 }
        ensures { result ≡ behind self + 2 * self.most }
    {
        self.touched() + 2 * self.most
    }
}

// A pair's record, where it has one.
pub fn find(room: &[u8], p: Pairs, key: u64) -> Option<usize>
    requires { (Pairing p (cells room.now)) × (0 < key) }
    ensures { MatchOption result (record_of p (cells room.now) key ≡ 0)
        (λ r. record_of p (cells room.now) key ≡ r + 1) }
{
    match index::get(room, p.index(), key) {
        Some(v) => Some((v - 1) as usize),
        None => None,
    }
}

// Counts that a record is asked for.
fn ask(room: &mut [u8], p: Pairs)
    requires { (Pairing p (cells room.old)) × (made p (cells room.old) < p.most) }
    ensures { Asked p (cells room.old) (cells room.new) }
{
    let at = p.lists() + 1;
    let m = cells::cell(room, at);
    cells::put_cell(room, at, m + 1);
}

// Makes a record for a pair that has none.
fn make(room: &mut [u8], p: Pairs, key: u64) -> usize
    requires { CanMake p key (cells room.old) }
    ensures { Made p key result (cells room.old) (cells room.new) }
{
    let r = arena::alloc(room, p.arena(), key);
    index::insert(room, p.index(), key, (r + 1) as u64);
    r
}

// A pair's record, made blank where it has none.
pub fn entry(room: &mut [u8], p: Pairs, key: u64) -> usize
    requires { CanEnter p key (cells room.old) }
    ensures { Entered p key result (cells room.old) (cells room.new) }
{
    ask(room, p);
    match find(room, p, key) {
        Some(r) => r,
        None => make(room, p, key),
    }
}

// Takes a pair's record away, if it has one.
pub fn remove(room: &mut [u8], p: Pairs, key: u64)
    requires { (Pairing p (cells room.old)) × (0 < key) }
    ensures { Removed p key (cells room.old) (cells room.new) }
{
    if let Some(r) = find(room, p, key) {
        index::erase(room, p.index(), key);
        arena::release(room, p.arena(), r);
    }
}
