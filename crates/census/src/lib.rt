// The first count: what is known of every pair before any merge (`count_pairs` of the original).
#![tactic(auto)]

ghost use Rattle.cells.specs.Cells.{cells};
ghost use Rattle.census.specs.Census.{CanCount, CountDone, CanCountWord, WordCounted};

use pairs::Pairs;
use word::WordSet;

// Counts the pairs of word k, position by position: each is a +1, as often as the word occurs. There are n pairs on the list of
// the touched; says how many there are then.
fn count_word(room: &mut [u8], w: WordSet, p: Pairs, k: usize, n: usize) -> usize
    requires { CanCountWord w p k n (cells room.old) }
    ensures { WordCounted w p k n (cells room.old) (cells room.new) result }
{
    let at = word::word(room, w, k);
    let f = word::frequency(room, w, k);
    let mut m = n;
    for i in 1..at.length {
        let s = word::symbol(room, at.start + i - 1);
        let t = word::symbol(room, at.start + i);
        m = reports::raise(room, p, m, s, t, f, k);
    }
    m
}

// Counts the pairs of all words, in order. Says how many pairs are on the list of the touched: all that there are.
pub fn count_pairs(room: &mut [u8], w: WordSet, p: Pairs) -> usize
    requires { CanCount w p (cells room.old) }
    ensures { CountDone w p (cells room.old) (cells room.new) result }
{
    let mut n = 0;
    for k in 0..w.count {
        n = count_word(room, w, p, k, n);
    }
    n
}
