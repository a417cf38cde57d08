// The demonstration program: a text of words and frequencies in, a text of codes out.
//
// Standard input has lines of a word, a space, a frequency and LF. Standard output has the merges that
// Chars gives with the suffix `</w>`, a size of 64 and a minimum of 2, or one line that says why there
// are none: `too long`, `bad line N` or `refused: N`.
#![tactic(auto)]

ghost use Rattle.std.specs.Prelude.{◌≤◌, ◌/◌, length};

use lines::{ParseError, Parsed};
use std::io;
use std::io::Print;
use table::{Settings, Table};

// Cuts a well-formed word into its characters.
const CHARS: u64 = 1;

// The vocabulary has at most so many pieces: the rooms for ends, merges and savings have a place for each.
const SIZE: u64 = 64;

// A pair is merged if it occurs so often.
const MINIMUM: u64 = 2;

// No piece is too long.
const NO_LIMIT: u64 = 0xFFFF_FFFF_FFFF_FFFF;

// A line of some words and a number.
fn line(rt: &impl Print, s: &[u8], n: u64) -> io::Result<()> {
    rt.write_all(s)?;
    println!(rt; "{n}")
}

// A number that is to be no more than a room has. Every count that training gives is.
fn within(n: u64, most: usize) -> usize
    ensures { result ≤ most }
{
    if n < most as u64 { n as usize } else { most }
}

// How many bytes the pieces have: their last end says so.
fn used(ends: &[u8], count: usize) -> u64
    requires { count ≤ length ends.now / 4 }
{
    if count == 0 {
        return 0;
    }
    vocab::end_at(ends, count - 1) as u64
}

// Writes the codes of the merges in these runs. A line has no more bytes than the piece that it makes
// and 2, so that the room is enough for 64 of them.
fn write(
    rt: &impl Print,
    pieces: &[u8],
    ends: &[u8],
    merges: &[u8],
    many: usize,
) -> io::Result<()> {
    let mut out = [0u8; 4096];
    match codes::write_codes(&mut out, pieces, ends, merges, many) {
        Ok(n) => rt.write_all(&out[0..within(n as u64, 4096)]),
        Err(_) => Ok(()),
    }
}

// Writes the codes of an answer that is at the front of the rooms.
fn answer(
    rt: &impl Print,
    pieces: &[u8],
    ends: &[u8],
    merges: &[u8],
    count: u64,
    many: u64,
) -> io::Result<()> {
    let n = within(count, ends.len() / 4);
    let m = within(many, merges.len() / 8);
    let bytes = within(used(ends, n), pieces.len());
    write(rt, &pieces[0..bytes], &ends[0..n * 4], &merges[0..m * 8], m)
}

// Trains on a table, and writes the codes or the number of the refusal.
fn train(rt: &impl Print, words: &[u8], word_ends: &[u8], frequencies: &[u8]) -> io::Result<()> {
    let mut work = [0u8; 57344];
    let mut pieces = [0u8; 2048];
    let mut ends = [0u8; 256];
    let mut merges = [0u8; 512];
    let mut savings = [0u8; 512];
    let t = Table {
        words,
        word_ends,
        frequencies,
        alphabet: b"",
        alphabet_ends: b"",
        prefix: b"",
        suffix: b"</w>",
        seeding: CHARS,
    };
    let settings = Settings {
        vocab_size: SIZE,
        min_frequency: MINIMUM,
        max_piece_length: NO_LIMIT,
    };
    let r = trainer::train(
        t,
        settings,
        &mut work,
        &mut pieces,
        &mut ends,
        &mut merges,
        &mut savings,
    );
    match r {
        Ok(r) => answer(rt, &pieces, &ends, &merges, r.pieces, r.merges),
        Err(why) => line(rt, b"refused: ", why.number()),
    }
}

// Reads a text as a table and trains on it, or writes what is wrong with the text. The rooms are those
// of a longest text, so that none is too short.
fn run(rt: &impl Print, s: &[u8]) -> io::Result<()> {
    let mut words = [0u8; 1024];
    let mut ends = [0u8; 256];
    let mut frequencies = [0u8; 512];
    match lines::parse(s, &mut words, &mut ends, &mut frequencies) {
        Err(ParseError::NoRoom) => Ok(()),
        Err(ParseError::TooLong) => rt.write_all(b"too long\n"),
        Err(ParseError::BadLine(n)) => line(rt, b"bad line ", n as u64),
        Ok(Parsed { count, bytes }) => {
            let n = within(count as u64, 64);
            train(
                rt,
                &words[0..within(bytes as u64, 1024)],
                &ends[0..n * 4],
                &frequencies[0..n * 8],
            )
        }
    }
}

// One byte over the limit is enough to know that a text is too long.
fn main(rt: HostRuntime) -> io::Result<()> {
    let mut input = [0u8; 1025];
    let n = inputs::read_full(&mut rt.reader(), &mut input)?;
    run(&rt, &input[..n])
}
