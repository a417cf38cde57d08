// A merge in the words that hold its pair: each is rewritten in place, and the reports of each rewrite are applied as
// it is made.
#![tactic(auto)]

ghost use Rattle.std.specs.Prelude.{◌≡◌, ◌+◌, ◌<◌, ◌≤◌, length};
ghost use Rattle.cells.specs.Cells.{cells};
ghost use Rattle.states.specs.State as states;
ghost use Rattle.pairs.specs.View.{state};
ghost use Rattle.pairs.specs.Pairs.{Has};
ghost use Rattle.joining.specs.Joining.{Midway, JoinedWord, JoinedAll};
ghost use Rattle.joining.specs.Running.{word_of, CanTell, Told, CanShorten, Shortened};
ghost use Rattle.joining.specs.Visiting.{together, CanLook, Weights, Visiting};

use pairs::{Pair, Pairs};
use step::{Rule, Step};
use word::WordSet;

// The words as a merge left them, and how many pairs it has touched.
#[derive(Clone, Copy)]
pub struct Joined {
    pub words: WordSet,
    pub touched: usize,
}

// Applies the reports of a step in word k, of frequency f, where n pairs are touched so far. A step that keeps a
// symbol has none.
fn tell(room: &mut [u8], p: Pairs, n: usize, st: Step, rule: Rule, f: u64, k: usize) -> usize
    requires { CanTell rule.a rule.b rule.x p n st f (cells room.old) }
    ensures { Told rule.a rule.b rule.x p n st f k (cells room.old) (cells room.new) result }
{
    if st.took != 2 {
        return n;
    }
    reports::report(room, p, n, st, rule, f, k)
}

// Puts the length of the word whose symbols begin in the cell `start`: `kept` of the `long` that it had, with m pairs
// touched.
fn shorten(room: &mut [u8], w: WordSet, start: usize, long: usize, kept: usize, m: usize) -> Joined
    requires { CanShorten w start long kept (cells room.old) }
    ensures { Shortened w start long kept m (cells room.old) (cells room.new) result }
{
    cells::put_cell(room, start - 1, kept as u64);
    Joined {
        words: WordSet {
            live: w.live - (long - kept),
            ..w
        },
        touched: m,
    }
}

// Rewrites a pair in word k, of frequency f. Each rewrite is reported before it is written, with the symbol that
// stands before it in the rewritten word.
fn merge_word(room: &mut [u8], now: Joined, p: Pairs, k: usize, f: u64, rule: Rule) -> Joined
    requires { (Midway rule.a rule.b rule.x now.words p now.touched (cells room.old)) × (k < now.words.count)
        × (f ≡ (word_of now.words k (cells room.old)).frequency) }
    ensures { JoinedWord rule.a rule.b rule.x now.words p k (cells room.old) (cells room.new) result }
{
    let here = word::word(room, now.words, k);
    let mut at = here.start;
    let mut left = here.length;
    let mut kept = 0;
    let mut m = now.touched;
    let mut previous = None;
    while 0 < left {
        let st = merge::look(room, at, left, previous, rule);
        m = tell(room, p, m, st, rule, f, k);
        let c = merge::left_by(room, at, st);
        cells::put_cell(room, here.start + kept, c);
        previous = Some(st.symbol);
        at += st.took;
        left -= st.took;
        kept += 1;
    }
    shorten(room, now.words, here.start, here.length, kept, m)
}

// How many of the `left` words of a list that are not visited yet are visited next.
fn batch(left: usize) -> usize
    ensures { result ≡ together left }
{
    left.min(16)
}

// The frequencies of n words of a pair's list, from the i-th on. Each read waits for no other, so that the words are
// fetched side by side, before the first is rewritten.
fn frequencies(room: &[u8], w: WordSet, pair: Pair, i: usize, n: usize) -> [u64; 16]
    requires { CanLook w pair.pairs pair.key pair.number i n (cells room.now) }
    ensures { Weights w pair.pairs pair.key i n (cells room.now) result }
{
    let mut fs = [0u64; 16];
    for j in 0..n {
        let k = lists::word_at(room, pair, i + j) as usize;
        fs[j] = word::frequency(room, w, k);
    }
    fs
}

// Rewrites the rule's pair in `some` words of its list, from the i-th on.
fn merge_some(
    room: &mut [u8],
    begun: Joined,
    pair: Pair,
    i: usize,
    some: usize,
    rule: Rule,
) -> Joined
    requires of_rule { pair.key ≡ states.key rule.a rule.b }
    requires midway { (Midway rule.a rule.b rule.x begun.words pair.pairs begun.touched (cells room.old))
        × (Has pair.pairs (states.key rule.a rule.b) pair.number (cells room.old)) }
    requires some_in_bounds { (i + some ≤ length (state pair.pairs (cells room.old) (states.key rule.a rule.b)).words)
        × (some ≤ 16) }
    ensures { Visiting rule.a rule.b rule.x begun.words pair.pairs pair.number i (i + some)
        result.touched result.words (cells room.old) (cells room.new) }
{
    let fs = frequencies(room, begun.words, pair, i, some);
    let mut now = begun;
    for j in 0..some {
        let k = lists::word_at(room, pair, i + j) as usize;
        now = merge_word(room, now, pair.pairs, k, fs[j], rule);
    }
    now
}

// Rewrites a pair in the words of its list, which has every word that holds it, where n pairs are touched so far. Its
// record is r.
pub fn merge_words(room: &mut [u8], w: WordSet, p: Pairs, r: usize, rule: Rule, n: usize) -> Joined
    requires { (Midway rule.a rule.b rule.x w p n (cells room.old))
        × (Has p (states.key rule.a rule.b) r (cells room.old)) }
    ensures { JoinedAll rule.a rule.b rule.x w p (cells room.old) (cells room.new) result }
{
    let pair = Pair {
        pairs: p,
        key: states::key(rule.a, rule.b),
        number: r,
    };
    let many = lists::words_len(room, pair) as usize;
    let mut now = Joined {
        words: w,
        touched: n,
    };
    let mut i = 0;
    while i < many {
        let some = batch(many - i);
        now = merge_some(room, now, pair, i, some, rule);
        i += some;
    }
    now
}
