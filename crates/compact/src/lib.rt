// Closing the gaps between the words of a set, where they have come to be many.
//
// No word grows, so in order each finds its new place at or below the old one: one pass, in the room itself.
#![tactic(auto)]

ghost use Rattle.std.specs.Prelude.{◌≡◌, ◌+◌, ◌*◌, ◌^◌, ◌<◌, ◌≤◌, length};
ghost use Rattle.runs.specs.Parts.{nth};
ghost use Rattle.cells.specs.Cells.{cells};
ghost use Rattle.word.specs.Layout.{Words};
ghost use Rattle.compact.specs.Compacting.{sparse, Relocated, Moved, Compacted};

use word::WordSet;

// Whether the gaps have come to take more cells than the symbols.
#[tactic(auto, unfolding(crate::specs::Compacting::sparse))]
pub fn is_sparse(w: WordSet) -> bool
    requires { (w.low + w.live + 2 * w.count ≤ w.top) × (w.top < 2 ^ 61) }
    ensures { result ≡ sparse w }
{
    2 * w.live < w.top - w.low - 2 * w.count
}

// Copies n cells from s to `to`, and notes in the cell `place` where they are now.
fn relocate(room: &mut [u8], place: usize, s: usize, to: usize, n: usize)
    requires n_in_bounds { (s + n ≤ length (cells room.old)) × (to + n ≤ length (cells room.old)) }
    requires place_in_bounds { place < length (cells room.old) }
    ensures { Relocated place s to n (cells room.old) (cells room.new) }
{
    cells::copy_cells(room, to, s, n);
    cells::put_cell(room, place, to as u64);
}

// Moves word k down to the cell `to`, and says where it ends then.
fn slide(room: &mut [u8], w: WordSet, k: usize, to: usize) -> usize
    requires words { Words w (cells room.old) }
    requires k_lt_count { k < w.count }
    requires low_le_to { (w.low ≤ to) × (to ≤ nth (cells room.old) (w.starts + k)) }
    ensures { Moved w k to (cells room.old) (cells room.new) result }
{
    let s = word::place(room, w, k);
    let n = cells::cell(room, s + 1) as usize;
    if to == s {
        return to + 2 + n;
    }
    relocate(room, w.starts + k, s, to, 2 + n);
    to + 2 + n
}

// Puts each word right behind the one before, as it is and under the number that it had, and lowers
// the top.
pub fn compact(room: &mut [u8], w: WordSet) -> WordSet
    requires { Words w (cells room.old) }
    ensures { Compacted w (cells room.old) (cells room.new) result }
{
    let mut to = w.low;
    for k in 0..w.count {
        to = slide(room, w, k, to);
    }
    WordSet { top: to, ..w }
}
