// The door: what other languages call, and nothing else. The crate `door_c` exports these functions
// to C under their own names, and `include/rindovesh.h` declares them.
//
// None has a `requires`: for every input its contract says the number returned and the bytes of
// every lent run at exit.
#![tactic(auto)]

ghost use Rattle.std.specs.Prelude.{◌≡◌, [], ◌∷◌, ◌≤◌, length};
ghost use Rattle.rule.specs.Outcome.{told, train_outcome, piece_outcome, merge_outcome};
ghost use Rattle.trainer.specs.Train.{task_of};
ghost use Rattle.door.specs.Door.{rooms, trained, read, merged};

use error::{MergeError, PieceError, TrainError};
use step::Rule;
use table::{Settings, Table};
use vocab::Place;

// Puts up to three numbers into an answer run, 8 bytes each from its start, and 0 into every other
// byte. A number that is not given is 0, which leaves the same bytes.
fn give(answer: &mut [u8], first: u64, second: u64, third: u64)
    requires { 64 ≤ length answer.old }
    ensures { answer.new ≡ told answer.old (first ∷ second ∷ third ∷ []) }
{
    answer.fill(0);
    numbers::store8(answer, 0, first);
    numbers::store8(answer, 8, second);
    numbers::store8(answer, 16, third);
}

// Trains a vocabulary on a word table.
// Stays: a parameter for each run and each setting, as C passes them (`include/rindovesh.h`).
pub fn rindovesh_train(
    words: &[u8],
    word_ends: &[u8],
    frequencies: &[u8],
    alphabet: &[u8],
    alphabet_ends: &[u8],
    prefix: &[u8],
    suffix: &[u8],
    seeding: u64,
    vocab_size: u64,
    min_frequency: u64,
    max_piece_length: u64,
    work: &mut [u8],
    pieces: &mut [u8],
    piece_ends: &mut [u8],
    merges: &mut [u8],
    savings: &mut [u8],
    answer: &mut [u8],
) -> u64
    ensures { trained result (rooms work.new pieces.new piece_ends.new merges.new savings.new answer.new)
        ≡ train_outcome (task_of words.now word_ends.now frequencies.now alphabet.now alphabet_ends.now
        prefix.now suffix.now seeding vocab_size min_frequency max_piece_length)
        (rooms work.old pieces.old piece_ends.old merges.old savings.old answer.old) }
{
    if answer.len() < 64 {
        return TrainError::BadShape.number();
    }
    let t = Table {
        words,
        word_ends,
        frequencies,
        alphabet,
        alphabet_ends,
        prefix,
        suffix,
        seeding,
    };
    let settings = Settings {
        vocab_size,
        min_frequency,
        max_piece_length,
    };
    match trainer::train(t, settings, work, pieces, piece_ends, merges, savings) {
        Ok(r) => {
            give(answer, r.pieces, r.alphabet, r.merges);
            0
        }
        Err(why) => {
            give(answer, why.first(), why.second(), 0);
            why.number()
        }
    }
}

// Looks a piece up by its number.
pub fn rindovesh_piece(pieces: &[u8], piece_ends: &[u8], number: u64, answer: &mut [u8]) -> u64
    ensures { read result answer.new ≡ piece_outcome pieces.now piece_ends.now number answer.old }
{
    if answer.len() < 64 {
        return PieceError::BadShape.number();
    }
    match vocab::look(pieces, piece_ends, number) {
        Ok(Place { start, length }) => {
            give(answer, start as u64, length as u64, 0);
            0
        }
        Err(why) => {
            give(answer, 0, 0, 0);
            why.number()
        }
    }
}

// Rewrites the pair (left,right) to `joined` in a word, and reports how the counts of the other pairs
// change.
pub fn rindovesh_merge_symbols(
    symbols: &mut [u8],
    left: u32,
    right: u32,
    joined: u32,
    changes: &mut [u8],
    answer: &mut [u8],
) -> u64
    ensures { merged result symbols.new changes.new answer.new
        ≡ merge_outcome symbols.old left right joined changes.old answer.old }
{
    if answer.len() < 64 {
        return MergeError::BadShape.number();
    }
    let rule = Rule {
        a: left,
        b: right,
        x: joined,
    };
    match symbols::merge_symbols(symbols, rule, changes) {
        Ok(m) => {
            give(answer, m.rewrites, m.kept, m.reports);
            0
        }
        Err(why) => {
            give(answer, 0, 0, 0);
            why.number()
        }
    }
}
