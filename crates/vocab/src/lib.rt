// The reader of a trained vocabulary: a piece by its number, as the caller's own bytes.
//
// Pieces stand end to end in one run, and their ends, 4 bytes each, in another. No end is trusted
// before all of them are tested, so that any two runs and any number have an answer.
#![tactic(auto)]

ghost use Rattle.std.specs.Prelude.{◌≡◌, ◌*◌, ◌/◌, ◌<◌, ◌≤◌, length};
ghost use Rattle.runs.specs.Parts.{nth};
ghost use Rattle.numbers.specs.Little.{numbers};
ghost use Rattle.rule.specs.Shapes.{rise_to, shaped};
ghost use Rattle.rule.specs.Layout.{piece_start};
ghost use Rattle.vocab.specs.Reading.{Within, Looked, part_of, piece_given};

use error::PieceError;

// More ends than this are refused.
const MOST_ENDS: usize = 16777216;

// How far the two runs of a vocabulary are filled: so many pieces, which have so many bytes.
#[derive(Clone, Copy)]
pub struct Filled {
    pub count: usize,
    pub used: usize,
}

// The i-th end.
// Stays: who goes over parts keeps the last end: a walk with a closure would say more than the loop.
#[tactic(auto, using(crate::proofs::Places::number_load))]
pub fn end_at(ends: &[u8], i: usize) -> usize
    requires { i < length ends.now / 4 }
    ensures { result ≡ nth (numbers 4 ends.now) i }
{
    numbers::load4(ends, i * 4) as usize
}

// Where piece n starts: at the end before it, the first at 0.
#[tactic(auto, using(crate::proofs::Reading::start_later, rule::proofs::Reading::start_first))]
pub fn piece_start(ends: &[u8], n: usize) -> usize
    requires { n * 4 ≤ length ends.now }
    ensures { result ≡ piece_start ends.now n }
{
    if n == 0 {
        return 0;
    }
    end_at(ends, n - 1)
}

// Tells whether the ends rise from 0 to the number of bytes.
fn rises(ends: &[u8], bytes: usize) -> bool
    ensures { result ≡ rise_to bytes 0 (numbers 4 ends.now) }
{
    let mut last = 0;
    for i in 0..ends.len() / 4 {
        let end = end_at(ends, i);
        if end < last {
            return false;
        }
        last = end;
    }
    last == bytes
}

// Tells whether bytes and their ends have the shape of a table: whole ends that rise to the last
// byte.
#[tactic(auto, using(crate::proofs::Shaped::shaped_not, crate::proofs::Shaped::shaped_by))]
pub fn is_shaped(bytes: &[u8], ends: &[u8]) -> bool
    ensures { result ≡ shaped bytes.now ends.now }
{
    if ends.len() % 4 != 0 {
        return false;
    }
    rises(ends, bytes.len())
}

// Where a piece stands among the bytes of all pieces.
#[derive(Clone, Copy)]
pub struct Place {
    pub start: usize,
    pub length: usize,
}

// Looks a piece up by its number: where it stands, or why there is none.
pub fn look(pieces: &[u8], ends: &[u8], number: u64) -> Result<Place, PieceError>
    ensures { Looked pieces.now ends.now number result }
{
    if !is_shaped(pieces, ends) {
        return Err(PieceError::BadShape);
    }
    let count = ends.len() / 4;
    if MOST_ENDS < count {
        return Err(PieceError::BadShape);
    }
    if count as u64 <= number {
        return Err(PieceError::NoSuchId);
    }
    let n = number as usize;
    let start = piece_start(ends, n);
    let end = end_at(ends, n);
    let length = end - start;
    Ok(Place { start, length })
}

// The part of the pieces that an answer names: empty where it names none.
#[tactic(auto, using(crate::proofs::Reading::part_rules))]
fn part<'a>(pieces: &'a [u8], what: Result<Place, PieceError>) -> &'a [u8]
    requires { Within what (length pieces.now) }
    ensures { result.now ≡ part_of pieces.now what }
{
    match what {
        Ok(place) => &pieces[place.start..place.start + place.length],
        Err(_) => &[],
    }
}

// The piece that has a number, as part of the caller's own bytes: empty where there is none, which
// `look` tells from an empty piece.
// Stays: no Option, since the clause promises the empty part on a refusal (`piece_given`).
pub fn piece<'a, 'b>(pieces: &'a [u8], ends: &'b [u8], number: u64) -> &'a [u8]
    ensures { result.now ≡ piece_given pieces.now ends.now number }
{
    part(pieces, look(pieces, ends, number))
}
