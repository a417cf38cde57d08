// The reader as a value: it keeps the lent table, and hands out a piece as the caller's own bytes
// with the answer beside it.
//
// Its functions are few and thin: all the work is done by `vocab`, whose `look` and `piece` serve
// every other caller.
#![tactic(auto)]

ghost use Rattle.std.specs.Prelude.{◌≡◌};
ghost use Rattle.reader.specs.Reader.{Answered};

use error::PieceError;
use vocab::Place;

// A piece: a part of the lent bytes, empty on a refusal. The answer beside it tells a refusal from
// an empty piece.
// Stays: part and answer side by side, since `Answered` promises both of every number.
#[derive(Clone, Copy)]
pub struct Piece<'a> {
    pub part: &'a [u8],
    pub what: Result<Place, PieceError>,
}

// The lent table, kept: the piece bytes and their ends.
#[derive(Clone, Copy)]
pub struct Reader<'a, 'b> {
    pub pieces: &'a [u8],
    pub ends: &'b [u8],
}

// Keeps a table. Nothing is tested yet: any two runs and any number have an answer.
pub fn open<'a, 'b>(pieces: &'a [u8], ends: &'b [u8]) -> Reader<'a, 'b>
    ensures { (result.pieces ≡ pieces.entry) × (result.ends ≡ ends.entry) }
{
    Reader { pieces, ends }
}

// The piece that has a number in a table, with the answer beside it.
pub fn find<'a, 'b>(pieces: &'a [u8], ends: &'b [u8], number: u64) -> Piece<'a>
    ensures { Answered pieces.now ends.now number result.part.now result.what }
{
    let what = vocab::look(pieces, ends, number);
    let part = vocab::piece(pieces, ends, number);
    Piece { part, what }
}

// The piece that has a number in the table that a reader keeps.
pub fn lookup<'a, 'b>(reader: Reader<'a, 'b>, number: u64) -> Piece<'a>
    ensures { Answered reader.entry.pieces.now reader.entry.ends.now number result.part.now result.what }
{
    find(reader.pieces, reader.ends, number)
}
