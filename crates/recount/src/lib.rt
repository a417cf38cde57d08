// The next merge by a recount: every adjacent position of every word, each pair's count made afresh.
//
// Training chooses by a queue, and takes of this the length test alone.
#![tactic(auto)]

ghost use Rattle.std.specs.Prelude.{◌≡◌, [], ◌∷◌, ◌<◌};
ghost use Rattle.cells.specs.Cells.{cells};
ghost use Rattle.intern.specs.Pieces as rooms;
ghost use Rattle.word.specs.Layout.{corpus, entry_at, words_in};
ghost use Rattle.rule.specs.Training.{better};
ghost use Rattle.recount.specs.Recount.{ruled, pick, known, Ready, Weighed, Tried, Chosen};

use lengths::Pieces;
use word::WordSet;

// A pair and its count.
#[derive(Clone, Copy)]
pub struct Choice {
    pub left: u32,
    pub right: u32,
    pub times: u64,
}

// Tells whether c comes before d: the greater count, then the lower pair.
#[tactic(auto, unfolding(crate::specs::Recount::ruled))]
fn is_better(c: Choice, d: Choice) -> bool
    ensures { result ≡ better (ruled c) (ruled d) }
{
    c.times > d.times || (c.times == d.times && (c.left, c.right) < (d.left, d.right))
}

// The better of two. Of two equals it is c. A pair that no word holds is not chosen.
#[tactic(auto, using(crate::proofs::Picking::picks))]
fn better(c: Option<Choice>, d: Choice) -> Option<Choice>
    ensures { result ≡ pick c d }
{
    match c {
        Some(best) if is_better(d, best) => Some(d),
        None if 0 < d.times => Some(d),
        _ => c,
    }
}

// Tells whether c is the pair (s,t).
#[tactic(auto, unfolding(crate::specs::Recount::known))]
fn is_known(c: Option<Choice>, s: u32, t: u32) -> bool
    ensures { result ≡ known c s t }
{
    match c {
        Some(best) => best.left == s && best.right == t,
        None => false,
    }
}

// The better of d and (s,t), which is skipped where it is over-long. A pair that is the best so far
// is not counted again.
// Stays: prefix and limit beside the pieces: they are what training is asked, and those what it has made.
fn try_pair(
    room: &[u8],
    w: WordSet,
    p: Pieces,
    prefix: &[u8],
    limit: u64,
    s: u32,
    t: u32,
    d: Option<Choice>,
) -> Option<Choice>
    requires ready { Ready w p.filled.count p.filled.used (cells room.now) p.bytes.now p.ends.now }
    requires s_lt_count { (s < p.filled.count) × (t < p.filled.count) }
    requires weighed { Weighed (words_in w (cells room.now)) d }
    ensures { Tried prefix.now limit (rooms.pieces p.entry.bytes.now p.entry.ends.now p.entry.filled.count)
        (corpus (cells room.now) w.starts w.count) (s ∷ t ∷ []) d result }
{
    if is_known(d, s, t) {
        return d;
    }
    if !lengths::is_within(p, prefix, limit, s, t) {
        return d;
    }
    let times = counting::count_pair(room, w, s, t);
    let pair = Choice {
        left: s,
        right: t,
        times,
    };
    better(d, pair)
}

// The best of c and the pairs of word k.
fn best_word(
    room: &[u8],
    w: WordSet,
    p: Pieces,
    prefix: &[u8],
    limit: u64,
    k: usize,
    c: Option<Choice>,
) -> Option<Choice>
    requires ready { Ready w p.filled.count p.filled.used (cells room.now) p.bytes.now p.ends.now }
    requires k_lt_count { k < w.count }
    requires weighed { Weighed (words_in w (cells room.now)) c }
    ensures { Tried prefix.now limit (rooms.pieces p.entry.bytes.now p.entry.ends.now p.entry.filled.count)
        (corpus (cells room.now) w.starts w.count)
        (entry_at (corpus (cells room.now) w.starts w.count) k).symbols c result }
{
    let span = word::word(room, w, k);
    let mut d = c;
    for i in 1..span.length {
        let s = word::symbol(room, span.start + i - 1);
        let t = word::symbol(room, span.start + i);
        d = try_pair(room, w, p, prefix, limit, s, t, d);
    }
    d
}

// The pair that is merged next, if there is one: the greatest count of all whose piece is within the
// limit, among equals the lowest pair.
// Stays: `Ready` in each clause: it ties the words and the pieces to the lent runs.
pub fn next_merge(room: &[u8], w: WordSet, p: Pieces, prefix: &[u8], limit: u64) -> Option<Choice>
    requires { Ready w p.filled.count p.filled.used (cells room.now) p.bytes.now p.ends.now }
    ensures { Chosen prefix.now limit (rooms.pieces p.entry.bytes.now p.entry.ends.now p.entry.filled.count)
        (corpus (cells room.now) w.starts w.count) result }
{
    let mut d = None;
    for k in 0..w.count {
        d = best_word(room, w, p, prefix, limit, k, d);
    }
    d
}
