// The C door: the functions of `door` under the names that C calls, and nothing else.
// `include/rindovesh.h` declares them.
//
// A slice is two C parameters, a pointer and a length in bytes. An exported function has no
// `requires`: for every input its contract says the number returned and the bytes of every lent run
// at exit.
#![tactic(auto)]

ghost use Rattle.std.specs.Prelude.{◌≡◌};
ghost use Rattle.rule.specs.Outcome.{train_outcome, piece_outcome, merge_outcome};
ghost use Rattle.trainer.specs.Train.{task_of};
ghost use Rattle.door.specs.Door.{rooms, trained, read, merged};

// Trains a vocabulary on a word table.
// Stays: the functions of `door` once more, as C calls them: a crate is a static library or a library, never both.
#[unsafe(no_mangle)]
pub extern "C" fn rindovesh_train(
    words: &[u8],
    word_ends: &[u8],
    frequencies: &[u8],
    alphabet: &[u8],
    alphabet_ends: &[u8],
    prefix: &[u8],
    suffix: &[u8],
    seeding: u64,
    vocab_size: u64,
    min_frequency: u64,
    max_piece_length: u64,
    work: &mut [u8],
    pieces: &mut [u8],
    piece_ends: &mut [u8],
    merges: &mut [u8],
    savings: &mut [u8],
    answer: &mut [u8],
) -> u64
    ensures { trained result (rooms work.new pieces.new piece_ends.new merges.new savings.new answer.new)
        ≡ train_outcome (task_of words.now word_ends.now frequencies.now alphabet.now alphabet_ends.now
        prefix.now suffix.now seeding vocab_size min_frequency max_piece_length)
        (rooms work.old pieces.old piece_ends.old merges.old savings.old answer.old) }
{
    door::rindovesh_train(
        words,
        word_ends,
        frequencies,
        alphabet,
        alphabet_ends,
        prefix,
        suffix,
        seeding,
        vocab_size,
        min_frequency,
        max_piece_length,
        work,
        pieces,
        piece_ends,
        merges,
        savings,
        answer,
    )
}

// Looks a piece up by its number.
#[unsafe(no_mangle)]
pub extern "C" fn rindovesh_piece(
    pieces: &[u8],
    piece_ends: &[u8],
    number: u64,
    answer: &mut [u8],
) -> u64
    ensures { read result answer.new ≡ piece_outcome pieces.now piece_ends.now number answer.old }
{
    door::rindovesh_piece(pieces, piece_ends, number, answer)
}

// Rewrites the pair (left,right) to `joined` in a word, and reports how the counts of the other pairs
// change.
#[unsafe(no_mangle)]
pub extern "C" fn rindovesh_merge_symbols(
    symbols: &mut [u8],
    left: u32,
    right: u32,
    joined: u32,
    changes: &mut [u8],
    answer: &mut [u8],
) -> u64
    ensures { merged result symbols.new changes.new answer.new
        ≡ merge_outcome symbols.old left right joined changes.old answer.old }
{
    door::rindovesh_merge_symbols(symbols, left, right, joined, changes, answer)
}
