// A word noted in a pair's list. A list that stands in the pair's record moves to a run of cells with its fifth
// word, and one that has filled its run to one of twice the capacity.
#![tactic(auto)]

ghost use Rattle.std.specs.Prelude.{◌≡◌};
ghost use Rattle.cells.specs.Cells.{cells};
ghost use Rattle.states.specs.State.{last_is};
ghost use Rattle.pairs.specs.View.{state};
ghost use Rattle.pairs.specs.Pairs.{Has};
ghost use Rattle.notes.specs.Notes.{with_note, with_more, CanNote, Noted, AddShort, AddLong, Ready, CanMove, MovedList};

use fields::{CAPACITY, FIRST, MANY, PLACE};
use pairs::Pair;

// Whether the word noted last is w.
fn seen(room: &[u8], pair: Pair, w: u64) -> bool
    requires { Has pair.pairs pair.key pair.number (cells room.now) }
    ensures { result ≡ last_is w (state pair.pairs (cells room.now) pair.key).words }
{
    let n = fields::get(room, pair.pairs, pair.number, MANY) as usize;
    if n == 0 {
        return false;
    }
    lists::word_at(room, pair, n - 1) == w
}

// Puts a word behind the n < 4 that stand in the record: first it stands there, then it counts.
fn add_short(room: &mut [u8], pair: Pair, n: usize, w: u64)
    requires { AddShort pair.pairs pair.key pair.number n (cells room.old) }
    ensures { Noted pair.pairs pair.key pair.number (with_more w (state pair.pairs (cells room.old) pair.key))
        (cells room.old) (cells room.new) }
{
    fields::put(room, pair.pairs, pair.number, FIRST + n, w);
    let more = (n + 1) as u64;
    fields::put(room, pair.pairs, pair.number, MANY, more);
}

// Moves the n words from the cell `from` on into a new run of `size` cells, which the record has from now on.
// Stays: place and length apart: a part of the cells that are written.
fn move_list(room: &mut [u8], pair: Pair, from: usize, n: usize, size: usize)
    requires { CanMove pair.pairs pair.key pair.number from n size (cells room.old) }
    ensures { MovedList pair.pairs pair.number from n size (cells room.old) (cells room.new) }
{
    let lists = pair.pairs.lists();
    let top = cells::cell(room, lists) as usize;
    cells::copy_cells(room, lists + 2 + top, from, n);
    cells::put_cell(room, lists, (top + size) as u64);
    fields::put(room, pair.pairs, pair.number, PLACE, top as u64);
    fields::put(room, pair.pairs, pair.number, CAPACITY, size as u64);
}

// Sees to it that the n words stand in a run that has space for one more.
fn widen(room: &mut [u8], pair: Pair, n: usize)
    requires { AddLong pair.pairs pair.key pair.number n (cells room.old) }
    ensures { Ready pair.pairs pair.key pair.number n (cells room.old) (cells room.new) }
{
    if n == 4 {
        let near = pair.pairs.records() + 3 + pair.number * 8 + FIRST;
        move_list(room, pair, near, 4, 8);
        return;
    }
    let size = fields::get(room, pair.pairs, pair.number, CAPACITY) as usize;
    if n == size {
        let place = fields::get(room, pair.pairs, pair.number, PLACE) as usize;
        move_list(room, pair, pair.pairs.words() + place, n, 2 * n);
    }
}

// Puts a word behind the n >= 4 that stand in a run: first it stands there, then it counts.
fn add_long(room: &mut [u8], pair: Pair, n: usize, w: u64)
    requires { AddLong pair.pairs pair.key pair.number n (cells room.old) }
    ensures { Noted pair.pairs pair.key pair.number (with_more w (state pair.pairs (cells room.old) pair.key))
        (cells room.old) (cells room.new) }
{
    widen(room, pair, n);
    let place = fields::get(room, pair.pairs, pair.number, PLACE) as usize;
    cells::put_cell(room, pair.pairs.words() + place + n, w);
    fields::put(room, pair.pairs, pair.number, MANY, (n + 1) as u64);
}

// Notes the word w in the list of a pair, unless it was noted last.
pub fn note(room: &mut [u8], pair: Pair, w: u64)
    requires { CanNote pair.pairs pair.key pair.number (cells room.old) }
    ensures { Noted pair.pairs pair.key pair.number (with_note w (state pair.pairs (cells room.old) pair.key))
        (cells room.old) (cells room.new) }
{
    if seen(room, pair, w) {
        return;
    }
    let n = fields::get(room, pair.pairs, pair.number, MANY) as usize;
    if n < 4 {
        add_short(room, pair, n, w);
    } else {
        add_long(room, pair, n, w);
    }
}
