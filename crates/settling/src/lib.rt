// The end of a merge: of the pairs that it touched, those without a count are released, and those that gained
// wait in the queue.
#![tactic(auto)]

ghost use Rattle.std.specs.Prelude.{◌≡◌, ◌+◌};
ghost use Rattle.runs.specs.Parts.{nth};
ghost use Rattle.cells.specs.Cells.{cells};
ghost use Rattle.pairs.specs.View.{behind, key_in};
ghost use Rattle.settling.specs.Settling.{CanSettle, SettleDone, cleared, CanSettleOne, OneSettled, gainer, CanWait, Waits};

use marks::Mark;
use pairs::{Pair, Pairs};
use queue::Candidate;

// Marks without touched and gained.
fn clear(v: u8) -> u8
    ensures { result ≡ cleared v }
{
    marks::clear(Mark::Gained, marks::clear(Mark::Touched, v))
}

// Adds e to the m candidates from the cell q on if its marks say that it has gained. Says how many there are then.
fn wait(room: &mut [u8], q: usize, m: usize, v: u8, e: Candidate) -> usize
    requires { CanWait q m (gainer v e) (cells room.old) }
    ensures { Waits q m (gainer v e) (cells room.old) (cells room.new) result }
{
    if marks::is_set(Mark::Gained, v) {
        queue::push(room, q, m, e);
        return m + 1;
    }
    m
}

// Settles the j-th pair on the list: it is released where it has no count, else its marks go and it waits if it
// has gained.
fn settle_one(room: &mut [u8], p: Pairs, q: usize, m: usize, j: usize) -> usize
    requires { CanSettleOne p q m j (cells room.old) }
    ensures { OneSettled p q m (key_in p (cells room.old) (nth (cells room.old) (behind p + j)))
        (cells room.old) (cells room.new) result }
{
    let r = cells::cell(room, p.touched() + j) as usize;
    let key = fields::key_of(room, p, r);
    let pair = Pair {
        pairs: p,
        key,
        number: r,
    };
    let count = fields::count(room, pair);
    if count == 0 {
        pairs::remove(room, p, key);
        return m;
    }
    let v = fields::marks(room, pair);
    let left = clear(v);
    fields::set_marks(room, pair, left);
    wait(room, q, m, v, Candidate { count, key })
}

// Settles the n pairs on the list. The queue has m candidates from the cell q on; says how many it has then.
pub fn settle(room: &mut [u8], p: Pairs, q: usize, m: usize, n: usize) -> usize
    requires { CanSettle p q m n (cells room.old) }
    ensures { SettleDone p q m n (cells room.old) (cells room.new) result }
{
    let mut w = m;
    for j in 0..n {
        w = settle_one(room, p, q, w, j);
    }
    w
}
