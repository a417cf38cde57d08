// Writing merges as a text of codes: a line for each, its two spellings with a space between.
//
// The text is measured before anything is written, so that a refusal leaves the lent run as it was.
// A spelling is what the reader of the vocabulary gives: for a number that has no piece, nothing.
#![tactic(auto)]

ghost use Rattle.std.specs.Prelude.{◌≡◌, [], ◌∷◌, ◌++◌, ◌+◌, ◌*◌, ◌≤◌, length, leb};
ghost use Rattle.codes.specs.Codes.{left_of, right_of, line_of, codes_text};
ghost use Rattle.codes.specs.Writing.{Wrote, Placed, lines_to};

use error::NoRoom;

// What stands between two spellings.
const SPACE: u8 = 32;

// What ends a line.
const LF: u8 = 10;

// The first line has so many bytes, its LF included.
const FIRST_LINE: usize = 14;

// The two numbers of the i-th merge, the left one first.
#[tactic(auto, unfolding(crate::specs::Codes::left_of, crate::specs::Codes::right_of))]
fn pair_of(merges: &[u8], i: usize) -> (u64, u64)
    requires { i * 8 + 8 ≤ length merges.now }
    ensures left { result.0 ≡ left_of merges.now i }
    ensures right { result.1 ≡ right_of merges.now i }
{
    let left = numbers::load4(merges, i * 8);
    let right = numbers::load4(merges, i * 8 + 4);
    (u64::from(left), u64::from(right))
}

// Tells whether the line of two spellings fits a room, with no sum that could wrap.
fn line_fits(left: &[u8], right: &[u8], room: usize) -> bool
    ensures { result ≡ leb (length left.now + (length right.now + 2)) room }
{
    if room < 2 {
        return false;
    }
    let rest = room - 2;
    if rest < left.len() {
        return false;
    }
    right.len() <= rest - left.len()
}

// Tells whether the text fits a room.
fn fits(pieces: &[u8], ends: &[u8], merges: &[u8], count: usize, room: usize) -> bool
    requires { count * 8 ≤ length merges.now }
    ensures { result ≡ leb (length (codes_text pieces.now ends.now merges.now count)) room }
{
    if room < FIRST_LINE {
        return false;
    }
    let mut rest = room - FIRST_LINE;
    for i in 0..count {
        let (l, r) = pair_of(merges, i);
        let left = vocab::piece(pieces, ends, l);
        let right = vocab::piece(pieces, ends, r);
        if !line_fits(left, right, rest) {
            return false;
        }
        rest = rest - 2 - left.len() - right.len();
    }
    true
}

// Puts a spelling and one byte behind it. Gives the place behind them.
fn put(out: &mut [u8], at: usize, spelling: &[u8], byte: u8) -> usize
    requires { at + (length spelling.now + 1) ≤ length out.old }
    ensures { Placed out.old out.new at (spelling.now ++ (byte ∷ [])) result }
{
    runs::copy(out, at, spelling);
    let end = at + spelling.len();
    out[end] = byte;
    end + 1
}

// Writes the line of the i-th merge. Gives the place behind it.
fn write_line(
    out: &mut [u8],
    at: usize,
    pieces: &[u8],
    ends: &[u8],
    merges: &[u8],
    i: usize,
) -> usize
    requires { (i * 8 + 8 ≤ length merges.now) × (at + length (line_of pieces.now ends.now merges.now i) ≤ length out.old) }
    ensures { Placed out.old out.new at (line_of pieces.now ends.now merges.now i) result }
{
    let (l, r) = pair_of(merges, i);
    let left = vocab::piece(pieces, ends, l);
    let right = vocab::piece(pieces, ends, r);
    let middle = put(out, at, left, SPACE);
    put(out, middle, right, LF)
}

// Writes the lines of all merges behind the first line. Gives the place behind them.
fn write_lines(
    out: &mut [u8],
    from: usize,
    pieces: &[u8],
    ends: &[u8],
    merges: &[u8],
    count: usize,
) -> usize
    requires { (count * 8 ≤ length merges.now) × (from + length (lines_to pieces.now ends.now merges.now count 0) ≤ length out.old) }
    ensures { Placed out.old out.new from (lines_to pieces.now ends.now merges.now count 0) result }
{
    let mut at = from;
    for i in 0..count {
        at = write_line(out, at, pieces, ends, merges, i);
    }
    at
}

// Writes the text of the first `count` merges at the start of the run, and gives how many bytes it
// has. It is refused where there are fewer merges, or where the run has no room for the text.
// Stays: the count beside the merges: fewer merges than asked for is a refusal (`written`).
pub fn write_codes(
    out: &mut [u8],
    pieces: &[u8],
    ends: &[u8],
    merges: &[u8],
    count: usize,
) -> Result<usize, NoRoom>
    ensures { Wrote out.old pieces.now ends.now merges.now count result out.new }
{
    if merges.len() / 8 < count {
        return Err(NoRoom);
    }
    if !fits(pieces, ends, merges, count, out.len()) {
        return Err(NoRoom);
    }
    let first = put(out, 0, b"#version: 0.2", LF);
    Ok(write_lines(out, first, pieces, ends, merges, count))
}
