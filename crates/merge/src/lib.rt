// Rewriting a pair in the words of a set, in place.
//
// Training reports each step besides, and takes of this the steps alone, `look` and `left_by`.
#![tactic(auto)]

ghost use Rattle.std.specs.Prelude.{◌≡◌, ◌+◌, ◌<◌, ◌≤◌, length, slice_get};
ghost use Rattle.runs.specs.Parts.{nth};
ghost use Rattle.cells.specs.Cells.{cells};
ghost use Rattle.word.specs.Layout.{symbols_at, Words};
ghost use Rattle.merge.specs.Cells.{leaves, Looked, Rewritten, RewrittenWord};
ghost use Rattle.merge.specs.Merging.{MergedWord, MergedAll};

use step::{Rule, Step};
use word::WordSet;

// What merging a word leaves of the set, and how many occurrences were rewritten.
#[derive(Clone, Copy)]
pub struct Merged {
    pub words: WordSet,
    pub rewrites: usize,
}

// The j-th of the `left` symbols from the cell `at` on, if there is one.
#[tactic(auto, using(crate::proofs::Runs::peek_in, crate::proofs::Runs::peek_past, cells::proofs::Cells::cells_small))]
fn peek(room: &[u8], at: usize, left: usize, j: usize) -> Option<u32>
    requires { at + left ≤ length (cells room.now) }
    ensures { result ≡ slice_get (symbols_at at left (cells room.now)) j }
{
    if j < left {
        return Some(word::symbol(room, at + j));
    }
    None
}

// The step at the front of the `left` symbols from the cell `at` on. `previous` is the symbol that
// stands before in the rewritten word, if any.
// Stays: the twin of symbols::look: this reads halves of cells, that one numbers of 4 bytes; the rule is `decide`.
pub fn look(room: &[u8], at: usize, left: usize, previous: Option<u32>, rule: Rule) -> Step
    requires { (at + left ≤ length (cells room.now)) × (0 < left) }
    ensures { Looked rule.a rule.b rule.x previous at left (cells room.now) result }
{
    let s = word::symbol(room, at);
    let t = peek(room, at, left, 1);
    let u = peek(room, at, left, 2);
    step::decide(rule, previous, s, t, u)
}

// What a step from the cell `at` leaves in a cell. A kept symbol takes its whole cell along.
#[tactic(auto, unfolding(crate::specs::Cells::leaves))]
pub fn left_by(room: &[u8], at: usize, st: Step) -> u64
    requires { at < length (cells room.now) }
    ensures { result ≡ leaves st (nth (cells room.now) at) }
{
    if st.took == 1 {
        return cells::cell(room, at);
    }
    u64::from(st.symbol)
}

// Rewrites a pair in the n symbols from the cell `start` on, and says how many are kept. No step
// writes more cells than it reads, so that writing stays behind reading.
// Stays: place and length apart: each turn moves both.
fn rewrite_run(room: &mut [u8], start: usize, n: usize, rule: Rule) -> usize
    requires { start + n ≤ length (cells room.old) }
    ensures { Rewritten rule.a rule.b rule.x start n (cells room.old) (cells room.new) result }
{
    let mut at = start;
    let mut left = n;
    let mut kept = 0;
    while 0 < left {
        let st = look(room, at, left, None, rule);
        let c = left_by(room, at, st);
        cells::put_cell(room, start + kept, c);
        at += st.took;
        left -= st.took;
        kept += 1;
    }
    kept
}

// Rewrites a pair in the word of n symbols at the cell s, and puts its length, how many are kept.
fn rewrite_word(room: &mut [u8], s: usize, n: usize, rule: Rule) -> usize
    requires { s + 2 + n ≤ length (cells room.old) }
    ensures { RewrittenWord rule.a rule.b rule.x s n (cells room.old) (cells room.new) result }
{
    let m = rewrite_run(room, s + 2, n, rule);
    cells::put_cell(room, s + 1, m as u64);
    m
}

// Rewrites a pair in word k of the set.
fn merge(room: &mut [u8], w: WordSet, k: usize, rule: Rule) -> Merged
    requires words { Words w (cells room.old) }
    requires k_lt_count { k < w.count }
    ensures { MergedWord rule.a rule.b rule.x w k (cells room.old) (cells room.new) result }
{
    let s = word::place(room, w, k);
    let n = cells::cell(room, s + 1) as usize;
    let m = rewrite_word(room, s, n, rule);
    Merged {
        words: WordSet {
            live: w.live - (n - m),
            ..w
        },
        rewrites: n - m,
    }
}

// Rewrites a pair in every word of the set.
pub fn merge_all(room: &mut [u8], w: WordSet, rule: Rule) -> WordSet
    requires { Words w (cells room.old) }
    ensures { MergedAll rule.a rule.b rule.x w (cells room.old) (cells room.new) result }
{
    let mut v = w;
    for k in 0..w.count {
        let m = merge(room, v, k, rule);
        v = m.words;
    }
    v
}
