// The queue engine between two merges: the words, what is known of each pair, and the queue of the pairs that may be
// merged next. So a merge goes to the words that hold its pair and to no others, and leaves the queue's entries
// alone.
#![tactic(auto)]

ghost use Rattle.std.specs.Prelude.{true};
ghost use Rattle.cells.specs.Cells.{cells};
ghost use Rattle.marks.specs.Marks.{touched, marking};
ghost use Rattle.word.specs.Layout.{Words};
ghost use Rattle.pairs.specs.View.{state};
ghost use Rattle.pairs.specs.Pairs.{Has, Updated};
ghost use Rattle.engine.specs.Engine.{CanStart, Started, CanJoin, JoinDone, CanClear, Cleared, Tidied};

use marks::Mark;
use pairs::{Pair, Pairs};
use step::Rule;
use word::WordSet;

// The queue has `waiting` candidates from the cell `queue` on, and at most `turns` entries are taken from it from here
// on.
#[derive(Clone, Copy)]
pub struct Engine {
    pub words: WordSet,
    pub pairs: Pairs,
    pub queue: usize,
    pub waiting: usize,
    pub turns: usize,
}

// No pair is known yet: the index, the head of the records and the head of the lists are cleared. The records and the
// lists themselves may hold anything, so that a start does not cost what they take.
fn clear(room: &mut [u8], p: Pairs)
    requires { CanClear p (cells room.old) }
    ensures { Cleared p (cells room.old) (cells room.new) }
{
    cells::clear_cells(room, p.base, 2 * p.cap + 3);
    cells::clear_cells(room, p.lists(), 2);
}

// The pair that is merged counts as touched: it is not put on the list, and not released while its words are read.
fn mark(room: &mut [u8], pair: Pair)
    requires { Has pair.pairs pair.key pair.number (cells room.old) }
    ensures { Updated pair.pairs pair.key pair.number
        (record (state pair.pairs (cells room.old) pair.key) {
          marks = marking touched true (state pair.pairs (cells room.old) pair.key).marks;
        })
        (cells room.old) (cells room.new) }
{
    let m = fields::marks(room, pair);
    let touched = marks::set(Mark::Touched, m);
    fields::set_marks(room, pair, touched);
}

// Closes the gaps between the words, where these take more cells than the symbols.
fn tidy(room: &mut [u8], w: WordSet) -> WordSet
    requires { Words w (cells room.old) }
    ensures { Tidied w (cells room.old) (cells room.new) result }
{
    if compact::is_sparse(w) {
        return compact::compact(room, w);
    }
    w
}

// Counts the pairs of the words, and lets all of them wait.
pub fn start(room: &mut [u8], w: WordSet, p: Pairs, x: u32) -> Engine
    requires { CanStart w p x (cells room.old) }
    ensures { Started w p x (cells room.old) (cells room.new) result }
{
    clear(room, p);
    let n = census::count_pairs(room, w, p);
    let queue = p.end();
    Engine {
        words: w,
        pairs: p,
        queue,
        waiting: settling::settle(room, p, queue, 0, n),
        turns: 5 * w.live,
    }
}

// Makes the rule's pair its symbol in all words that hold it.
pub fn join(room: &mut [u8], g: Engine, rule: Rule) -> Engine
    requires { CanJoin g rule.a rule.b rule.x (cells room.old) }
    ensures { JoinDone g rule.a rule.b rule.x (cells room.old) (cells room.new) result }
{
    let p = g.pairs;
    let key = states::key(rule.a, rule.b);
    let r = pairs::find(room, p, key).unwrap();
    let pair = Pair {
        pairs: p,
        key,
        number: r,
    };
    mark(room, pair);
    let d = joining::merge_words(room, g.words, p, r, rule, 0);
    let waiting = settling::settle(room, p, g.queue, g.waiting, d.touched);
    pairs::remove(room, p, key);
    Engine {
        words: tidy(room, d.words),
        waiting,
        ..g
    }
}
