// Making a set of words: a word is opened at the top, its symbols are added, and it is pushed.
#![tactic(auto)]

ghost use Rattle.std.specs.Prelude.{◌+◌, ◌<◌, ◌≤◌, length};
ghost use Rattle.cells.specs.Cells.{cells};
ghost use Rattle.word.specs.Layout.{Words, Numbers};
ghost use Rattle.pushing.specs.Pushing.{Opened, Added, Pushed};

use word::WordSet;

// A set without words.
pub fn empty(starts: usize, low: usize) -> WordSet
    ensures { Numbers result starts 0 low low 0 }
{
    WordSet {
        starts,
        count: 0,
        low,
        top: low,
        live: 0,
    }
}

// Opens a word at the top of the set.
// Stays: `Words` in each clause, as in word::place.
#[tactic(auto, using(crate::proofs::Pushing::opened))]
pub fn open(room: &mut [u8], w: WordSet, frequency: u64)
    requires words { Words w (cells room.old) }
    requires top_in_bounds { w.top < length (cells room.old) }
    ensures { Opened w frequency (cells room.old) (cells room.new) }
{
    cells::put_cell(room, w.top, frequency);
}

// Adds a symbol to the open word, which has n of them.
#[tactic(auto, using(crate::proofs::Pushing::added))]
pub fn add(room: &mut [u8], w: WordSet, n: usize, s: u32)
    requires words { Words w (cells room.old) }
    requires n_in_bounds { w.top + 2 + n < length (cells room.old) }
    ensures { Added w n s (cells room.old) (cells room.new) }
{
    cells::put_cell(room, w.top + 2 + n, u64::from(s));
}

// Makes the open word of n symbols a word of the set, with the next number. One of fewer than two
// symbols has no pair, and is dropped.
pub fn push(room: &mut [u8], w: WordSet, n: usize) -> WordSet
    requires words { Words w (cells room.old) }
    requires count_bound { w.starts + w.count < w.low }
    requires n_in_bounds { w.top + 2 + n ≤ length (cells room.old) }
    ensures { Pushed w n (cells room.old) (cells room.new) result }
{
    if n < 2 {
        return w;
    }
    cells::put_cell(room, w.top + 1, n as u64);
    cells::put_cell(room, w.starts + w.count, w.top as u64);
    WordSet {
        count: w.count + 1,
        top: w.top + 2 + n,
        live: w.live + n,
        ..w
    }
}
