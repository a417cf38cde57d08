// Counting a pair in the words of a set, position by position.
#![tactic(auto)]

ghost use Rattle.std.specs.Prelude.{◌≡◌, ◌+◌, ◌<◌, ◌≤◌, ◌^◌, length, drop};
ghost use Rattle.cells.specs.Cells.{cells};
ghost use Rattle.rule.specs.Rewriting.{count_in};
ghost use Rattle.rule.specs.Training.{count};
ghost use Rattle.rule.specs.Sums.{symbols_in};
ghost use Rattle.word.specs.Layout.{symbols_at, corpus, Words, words_in};
ghost use Rattle.counting.specs.Counting.{Tested, Counted};

use word::{Span, WordSet};

// 1 where (s,t) is (p,q), else 0.
fn hit(s: u32, t: u32, p: u32, q: u32) -> u64
    ensures { Tested p q s t result }
{
    u64::from(s == p && t == q)
}

// How many adjacent positions of a word's symbols hold (p,q). Overlaps count.
fn count_in(room: &[u8], at: Span, p: u32, q: u32) -> u64
    requires { at.start + at.length ≤ length (cells room.now) }
    ensures { result ≡ count_in p q (symbols_at at.start at.length (cells room.now)) }
{
    let mut hits = 0;
    for i in 1..at.length {
        let s = word::symbol(room, at.start + i - 1);
        let t = word::symbol(room, at.start + i);
        hits += hit(s, t, p, q);
    }
    hits
}

// `sum`, and the share of word k: its frequency for each position that holds (p,q).
fn add_word(room: &[u8], w: WordSet, k: usize, p: u32, q: u32, sum: u64) -> u64
    requires words { Words w (cells room.now) }
    requires k_lt_count { k < w.count }
    requires room_bound { sum + symbols_in (drop k (words_in w (cells room.now))) < 2 ^ 53 }
    ensures { Counted (corpus (cells room.now) w.starts w.count) k p q sum result }
{
    let at = word::word(room, w, k);
    let hits = count_in(room, at, p, q);
    let f = word::frequency(room, w, k);
    sum + f * hits
}

// The count of (p,q): the sum over the words of frequency times adjacent positions holding the pair.
pub fn count_pair(room: &[u8], w: WordSet, p: u32, q: u32) -> u64
    requires words { Words w (cells room.now) }
    requires room_bound { symbols_in (words_in w (cells room.now)) < 2 ^ 53 }
    ensures { result ≡ count p q (corpus (cells room.now) w.starts w.count) }
{
    let mut sum = 0;
    for k in 0..w.count {
        sum = add_word(room, w, k, p, q, sum);
    }
    sum
}
