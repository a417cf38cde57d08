// The training loop: choose a pair, make it a piece, rewrite the words, until the vocabulary has its
// size or no pair is left that counts enough.
#![tactic(auto)]

ghost use Rattle.std.specs.Prelude.{◌≡◌, ◌<◌, ◌≤◌, max};
ghost use Rattle.cells.specs.Cells.{cells};
ghost use Rattle.rule.specs.Layout.{piece_at};
ghost use Rattle.rule.specs.Spelling.{joined};
ghost use Rattle.intern.specs.Pieces.{Held};
ghost use Rattle.engine.specs.Engine.{CanStart, CanJoin};
ghost use Rattle.training.specs.Training.{ApplyDone, TrainedDone};

use choosing::Next;
use engine::Engine;
use error::NoRoom;
use lengths::Pieces;
use pairs::Pairs;
use step::Rule;
use table::Settings;
use vocab::Filled;
use word::WordSet;

// The least count that is merged: a minimum of 0 acts as 1.
fn floor(least: u64) -> u64
    ensures { result ≡ max 1 least }
{
    least.max(1)
}

// How far the pieces are filled and the engine once a merge is made.
#[derive(Clone, Copy)]
pub struct Applied {
    pub filled: Filled,
    pub engine: Engine,
}

// Makes a pair the piece with the next number, in the output rooms and in the words, as the k-th merge.
// Stays: the rooms apart, as in `train_words`.
#[tactic(auto, using(crate::proofs::Turning::apply_rules))]
fn apply(
    work: &mut [u8],
    next: Next,
    pieces: &mut [u8],
    ends: &mut [u8],
    merges: &mut [u8],
    savings: &mut [u8],
    filled: Filled,
    k: usize,
    prefix: &[u8],
) -> Result<Applied, NoRoom>
    requires held { Held filled.count filled.used pieces.old ends.old }
    requires can_join { CanJoin next.engine next.left next.right filled.count (cells work.old) }
    ensures { ApplyDone result next.engine filled.count filled.used k next.left next.right next.count
        (joined prefix.now (piece_at pieces.old ends.old next.left) (piece_at pieces.old ends.old next.right))
        (cells work.old) pieces.old ends.old merges.old savings.old
        (cells work.new) pieces.new ends.new merges.new savings.new }
{
    let end = output::append_piece(pieces, ends, filled, next.left, next.right, prefix)?;
    output::append_merge(merges, savings, k, next.left, next.right, next.count)?;
    let rule = Rule {
        a: next.left,
        b: next.right,
        x: filled.count as u32,
    };
    let engine = engine::join(work, next.engine, rule);
    let filled = Filled {
        count: filled.count + 1,
        used: end,
    };
    Ok(Applied { filled, engine })
}

// How far the pieces are filled, and how many merges there are.
#[derive(Clone, Copy)]
pub struct Trained {
    pub filled: Filled,
    pub merges: usize,
}

// Trains up to the size that is asked for, and no pair that counts less than the minimum or makes a piece over the
// limit; or tells that the full answer exceeds an output room. What is known of the pairs is kept at p.
// Stays: the rooms apart, as C lends them: what is left in each is said by itself (`TrainedDone`).
pub fn train_words(
    work: &mut [u8],
    set: WordSet,
    p: Pairs,
    pieces: &mut [u8],
    ends: &mut [u8],
    merges: &mut [u8],
    savings: &mut [u8],
    filled: Filled,
    prefix: &[u8],
    settings: Settings,
) -> Result<Trained, NoRoom>
    requires can_start { CanStart set p filled.count (cells work.old) }
    requires held { Held filled.count filled.used pieces.old ends.old }
    requires count_le_size { (filled.count ≤ settings.vocab_size) × (settings.vocab_size ≤ 16777216) }
    ensures { TrainedDone result set filled.count filled.used prefix.now settings.vocab_size settings.min_frequency
        settings.max_piece_length
        (cells work.old) pieces.old ends.old merges.old savings.old
        pieces.new ends.new merges.new savings.new }
{
    let enough = floor(settings.min_frequency);
    let limit = settings.max_piece_length;
    let mut engine = engine::start(work, set, p, filled.count as u32);
    let mut now = filled;
    for k in 0..settings.vocab_size as usize - filled.count {
        let there = Pieces {
            bytes: pieces,
            ends,
            filled: now,
        };
        let Some(next) = choosing::next_merge(work, engine, there, prefix, limit, enough) else {
            break;
        };
        let a = apply(work, next, pieces, ends, merges, savings, now, k, prefix)?;
        engine = a.engine;
        now = a.filled;
    }
    Ok(Trained {
        filled: now,
        merges: now.count - filled.count,
    })
}
