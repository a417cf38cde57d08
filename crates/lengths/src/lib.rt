// Where a piece stands, how long a joined piece is, and whether that is within the limit. Of the left piece its
// length is enough.
#![tactic(auto)]

ghost use Rattle.std.specs.Prelude.{◌≡◌, ◌+◌, ◌*◌, ◌<◌, ◌≤◌, length};
ghost use Rattle.rule.specs.Layout.{piece_start, piece_at};
ghost use Rattle.rule.specs.Spelling.{joined};
ghost use Rattle.rule.specs.Training.{within, limits};
ghost use Rattle.intern.specs.Pieces.{Held};
ghost use Rattle.intern.specs.Pieces as rooms;
ghost use Rattle.lengths.specs.Places.{Stands};

use vocab::{Filled, Place};

// The pieces of a vocabulary, to be read: their bytes end to end, where each ends, and how far both runs are filled.
#[derive(Clone, Copy)]
pub struct Pieces<'a> {
    pub bytes: &'a [u8],
    pub ends: &'a [u8],
    pub filled: Filled,
}

// Where the k-th piece stands.
pub fn place_of(ends: &[u8], k: u32) -> Place
    requires { ((k + 1) * 4 ≤ length ends.now) × (piece_start ends.now k ≤ piece_start ends.now (k + 1)) }
    ensures { Stands k ends.now result }
{
    let start = vocab::piece_start(ends, k as usize);
    let end = vocab::piece_start(ends, k as usize + 1);
    Place {
        start,
        length: end - start,
    }
}

// How many bytes the pieces `left` and `right` have when they are joined.
pub fn joined_bytes(p: Pieces, left: u32, right: u32, prefix: &[u8]) -> usize
    requires { (Held p.filled.count p.filled.used p.bytes.now p.ends.now)
        × (left < p.filled.count) × (right < p.filled.count) }
    ensures { result ≡ length (joined prefix.now
        (piece_at p.entry.bytes.now p.entry.ends.now left) (piece_at p.entry.bytes.now p.entry.ends.now right)) }
{
    let before = place_of(p.ends, left);
    let behind = place_of(p.ends, right);
    let right_bytes = &p.bytes[behind.start..behind.start + behind.length];
    spelling::joined_length(before.length, right_bytes, prefix)
}

// Tells whether the piece that s and t make is within the limit.
#[tactic(auto, using(crate::proofs::Joined::within_is))]
pub fn is_within(p: Pieces, prefix: &[u8], limit: u64, s: u32, t: u32) -> bool
    requires { (Held p.filled.count p.filled.used p.bytes.now p.ends.now)
        × (s < p.filled.count) × (t < p.filled.count) }
    ensures { result ≡ within (limits prefix.now limit)
        (rooms.pieces p.entry.bytes.now p.entry.ends.now p.entry.filled.count) s t }
{
    let long = joined_bytes(p, s, t, prefix);
    long as u64 <= limit
}
