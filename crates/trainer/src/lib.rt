// Training from a word table to a vocabulary: the refusals, the seeds, the merges, and what is left
// in every room.
//
// Rows 1 to 7 are judged before any room is written. After that the output rooms start at 0, so that
// what lies beyond the answer is 0, and a refusal sets all of them to 0 again. The work room is 0 in the end.
#![tactic(auto)]

ghost use Rattle.std.specs.Prelude.{◌≡◌, ◌≤◌};
ghost use Rattle.cells.specs.Cells.{cells};
ghost use Rattle.rule.specs.Outcome.{wiped};
ghost use Rattle.trainer.specs.Train.{asked, rooms_of, CanGrow, GrownDone, CanTrain, TableDone, RoomsDone, TrainDone};

use error::{NoRoom, TrainError};
use pairs::Pairs;
use table::{Settings, Table};
use vocab::Filled;
use word::WordSet;

// What training comes to: how many pieces, alphabet pieces and merges there are.
#[derive(Clone, Copy)]
pub struct Trained {
    pub pieces: u64,
    pub alphabet: u64,
    pub merges: u64,
}

// Rows 9 and 10 of a seeded table, and its merges.
// Stays: the rooms apart, as in `train`; a match, no From: NoRoom is OutputRoom here, SeedRoom below.
fn grow(
    work: &mut [u8],
    set: WordSet,
    units: usize,
    pieces: &mut [u8],
    piece_ends: &mut [u8],
    merges: &mut [u8],
    savings: &mut [u8],
    filled: Filled,
    prefix: &[u8],
    settings: Settings,
) -> Result<Trained, TrainError>
    requires can_grow { CanGrow set filled.count filled.used units (cells work.old) pieces.old piece_ends.old }
    requires vocab_size_bound { settings.vocab_size ≤ 16777216 }
    ensures { GrownDone result set filled.count filled.used prefix.now
        settings.vocab_size settings.min_frequency settings.max_piece_length
        (cells work.old) pieces.old piece_ends.old merges.old savings.old
        pieces.new piece_ends.new merges.new savings.new }
{
    let alphabet = filled.count as u64;
    if settings.vocab_size < alphabet {
        return Err(TrainError::VocabTooSmall {
            requested: settings.vocab_size,
            alphabet,
        });
    }
    let p = Pairs {
        base: layout::units_at(units),
        cap: layout::index_for(units),
        most: 3 * units,
    };
    let r = training::train_words(
        work, set, p, pieces, piece_ends, merges, savings, filled, prefix, settings,
    );
    match r {
        Ok(grown) => Ok(Trained {
            pieces: grown.filled.count as u64,
            alphabet,
            merges: grown.merges as u64,
        }),
        Err(NoRoom) => Err(TrainError::OutputRoom),
    }
}

// Sets a run to 0.
#[tactic(auto, unfolding(rule::specs::Outcome::wiped, runs::specs::Parts::zeros))]
fn wipe(run: &mut [u8])
    ensures { run.new ≡ wiped run.old }
{
    run.fill(0);
}

// Rows 8 to 10 of a table that the first seven do not refuse, in output rooms that are 0.
// Stays: the rooms apart, as in `train`.
fn train_table(
    t: Table,
    settings: Settings,
    units: usize,
    work: &mut [u8],
    pieces: &mut [u8],
    piece_ends: &mut [u8],
    merges: &mut [u8],
    savings: &mut [u8],
) -> Result<Trained, TrainError>
    requires { CanTrain (asked t settings) units work.old }
    ensures { TableDone result (asked t.entry settings)
        (rooms_of work.old pieces.old piece_ends.old merges.old savings.old)
        (rooms_of work.new pieces.new piece_ends.new merges.new savings.new) }
{
    match seeding::seed(work, pieces, piece_ends, t, units) {
        Ok(seeds) => grow(
            work,
            seeds.words,
            units,
            pieces,
            piece_ends,
            merges,
            savings,
            seeds.filled,
            t.prefix,
            settings,
        ),
        Err(NoRoom) => Err(TrainError::SeedRoom),
    }
}

// Sets all output rooms to 0.
fn wipe_outputs(pieces: &mut [u8], piece_ends: &mut [u8], merges: &mut [u8], savings: &mut [u8])
    ensures { (pieces.new ≡ wiped pieces.old) × (piece_ends.new ≡ wiped piece_ends.old)
        × (merges.new ≡ wiped merges.old) × (savings.new ≡ wiped savings.old) }
{
    wipe(pieces);
    wipe(piece_ends);
    wipe(merges);
    wipe(savings);
}

// Trains on a table that the first seven rows do not refuse, and leaves every room as it must be.
// Stays: the rooms apart, as in `train`.
fn train_rooms(
    t: Table,
    settings: Settings,
    units: usize,
    work: &mut [u8],
    pieces: &mut [u8],
    piece_ends: &mut [u8],
    merges: &mut [u8],
    savings: &mut [u8],
) -> Result<Trained, TrainError>
    requires { CanTrain (asked t settings) units work.old }
    ensures { RoomsDone result (asked t.entry settings)
        (rooms_of work.old pieces.old piece_ends.old merges.old savings.old)
        (rooms_of work.new pieces.new piece_ends.new merges.new savings.new) }
{
    wipe_outputs(pieces, piece_ends, merges, savings);
    let r = train_table(
        t, settings, units, work, pieces, piece_ends, merges, savings,
    );
    wipe(work);
    if r.is_err() {
        wipe_outputs(pieces, piece_ends, merges, savings);
    }
    r
}

// Trains a vocabulary: "Any word table, setting or room gets an answer".
// Stays: the rooms are runs that C lends, a parameter each, as in `rindovesh_train`.
pub fn train(
    t: Table,
    settings: Settings,
    work: &mut [u8],
    pieces: &mut [u8],
    piece_ends: &mut [u8],
    merges: &mut [u8],
    savings: &mut [u8],
) -> Result<Trained, TrainError>
    ensures { TrainDone result (asked t.entry settings)
        (rooms_of work.old pieces.old piece_ends.old merges.old savings.old)
        (rooms_of work.new pieces.new piece_ends.new merges.new savings.new) }
{
    let units = table::judge(t, settings.vocab_size, work.len())?;
    train_rooms(
        t,
        settings,
        units as usize,
        work,
        pieces,
        piece_ends,
        merges,
        savings,
    )
}
