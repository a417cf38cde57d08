// What a merge adds to the answer: the joined piece and its end, the merge and its saving.
//
// Each is written behind those that are there, and nothing is written where one has no place.
#![tactic(auto)]

ghost use Rattle.std.specs.Prelude.{◌+◌, ◌*◌, ◌<◌};
ghost use Rattle.rule.specs.Layout.{piece_at};
ghost use Rattle.rule.specs.Spelling.{joined};
ghost use Rattle.intern.specs.Pieces.{Held};
ghost use Rattle.output.specs.Output.{PieceDone, MergeDone};

use error::NoRoom;
use lengths::Pieces;
use vocab::Filled;

// The end of a piece has 4 bytes.
const LONGEST: usize = 4294967295;

// Joins two pieces to a new one behind the others, which always takes the next number, and tells where it ends.
#[tactic(auto, using(crate::proofs::Appending::piece_rules))]
pub fn append_piece(
    pieces: &mut [u8],
    ends: &mut [u8],
    filled: Filled,
    left: u32,
    right: u32,
    prefix: &[u8],
) -> Result<usize, NoRoom>
    requires { (Held filled.count filled.used pieces.old ends.old) × (left < filled.count) × (right < filled.count) }
    ensures { PieceDone result filled.count filled.used
        (joined prefix.now (piece_at pieces.old ends.old left) (piece_at pieces.old ends.old right))
        pieces.old ends.old pieces.new ends.new }
{
    if ends.len() / 4 <= filled.count {
        return Err(NoRoom);
    }
    let there = Pieces {
        bytes: pieces,
        ends,
        filled,
    };
    let n = lengths::joined_bytes(there, left, right, prefix);
    if pieces.len() - filled.used < n {
        return Err(NoRoom);
    }
    if LONGEST - filled.used < n {
        return Err(NoRoom);
    }
    let before = lengths::place_of(ends, left);
    let behind = lengths::place_of(ends, right);
    let end = spelling::join(pieces, filled.used, before, behind, prefix);
    numbers::store4(ends, filled.count * 4, end as u32);
    Ok(end)
}

// Writes the k-th merge and its saving, where there is a place for both.
#[tactic(auto, using(crate::proofs::Appending::merge_rules))]
pub fn append_merge(
    merges: &mut [u8],
    savings: &mut [u8],
    k: usize,
    left: u32,
    right: u32,
    saved: u64,
) -> Result<(), NoRoom>
    ensures { MergeDone result k left right saved merges.old savings.old merges.new savings.new }
{
    if merges.len() / 8 <= k {
        return Err(NoRoom);
    }
    if savings.len() / 8 <= k {
        return Err(NoRoom);
    }
    numbers::store4(merges, k * 8, left);
    numbers::store4(merges, k * 8 + 4, right);
    numbers::store8(savings, k * 8, saved);
    Ok(())
}
