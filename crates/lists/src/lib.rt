// A pair's list of words as it is read: `WordList` and `PairState` of the original. Up to four words stand in
// the pair's record, a longer list in a run of cells.
#![tactic(auto)]

ghost use Rattle.std.specs.Prelude.{◌≡◌, ◌<◌, length};
ghost use Rattle.runs.specs.Parts.{nth};
ghost use Rattle.cells.specs.Cells.{cells};
ghost use Rattle.pairs.specs.View.{state};
ghost use Rattle.pairs.specs.Pairs.{Has};
ghost use Rattle.lists.specs.Lists.{kind_of, length_of, Loaded};

use fields::{FIRST, MANY, PLACE};
use pairs::Pair;

// A list of words: so many in a place for four, or the place of a run and how many.
// Stays: a number beside four places: a record is fixed memory (docs/DECISIONS.md, 68).
#[derive(Clone, Copy)]
pub enum WordList {
    Short(u64, [u64; 4]),
    Spilled(u64, u64),
}

// Everything known of one pair.
#[derive(Clone, Copy)]
pub struct PairState {
    pub count: u64,
    pub marks: u8,
    pub words: WordList,
}

// How many words a list has.
pub fn len(words: WordList) -> u64
    ensures { result ≡ length_of words }
{
    match words {
        WordList::Short(n, _) => n,
        WordList::Spilled(_, n) => n,
    }
}

// Which kind of list n words are, by the last four fields of their record.
fn kind(n: u64, near: [u64; 4]) -> WordList
    ensures { result ≡ kind_of n near }
{
    if n <= 4 {
        WordList::Short(n, near)
    } else {
        WordList::Spilled(near[0], n)
    }
}

// The state of a pair that has a record.
// Stays: `Has` in each clause: it ties the numbers of a pair to the cells of a lent room.
fn load(room: &[u8], pair: Pair) -> PairState
    requires { Has pair.pairs pair.key pair.number (cells room.now) }
    ensures { Loaded pair.pairs pair.key (cells room.now) result }
{
    let n = fields::get(room, pair.pairs, pair.number, MANY);
    let a = fields::get(room, pair.pairs, pair.number, FIRST);
    let b = fields::get(room, pair.pairs, pair.number, FIRST + 1);
    let c = fields::get(room, pair.pairs, pair.number, FIRST + 2);
    let d = fields::get(room, pair.pairs, pair.number, FIRST + 3);
    let count = fields::count(room, pair);
    let marks = fields::marks(room, pair);
    let words = kind(n, [a, b, c, d]);
    PairState {
        count,
        marks,
        words,
    }
}

// The j-th word of its list.
pub fn word_at(room: &[u8], pair: Pair, j: usize) -> u64
    requires { (Has pair.pairs pair.key pair.number (cells room.now))
        × (j < length (state pair.pairs (cells room.now) pair.key).words) }
    ensures { result ≡ nth (state pair.pairs (cells room.now) pair.key).words j }
{
    let n = fields::get(room, pair.pairs, pair.number, MANY);
    if n <= 4 {
        return fields::get(room, pair.pairs, pair.number, FIRST + j);
    }
    let place = fields::get(room, pair.pairs, pair.number, PLACE) as usize;
    cells::cell(room, pair.pairs.words() + place + j)
}

// How many words its list has.
pub fn words_len(room: &[u8], pair: Pair) -> u64
    requires { Has pair.pairs pair.key pair.number (cells room.now) }
    ensures { result ≡ length (state pair.pairs (cells room.now) pair.key).words }
{
    let s = load(room, pair);
    let words = s.words;
    len(words)
}
