// Recorded tables, trained once more: what the Rust original answered is what has to come out.
//
// `stdin` and `stdout` were written by `record` of the package `differential`, which links the original:
// the examples of document 01 that the original knows, then 380 random tables from the seed 20,261,115.
// Each answer is the original's. A table is eight lines, the runs that the library is lent, in this
// order (a number is little-endian, as everywhere at the library's door):
//
//     settings        seeding, size, minimum and limit, 8 bytes each
//     words           end to end
//     word_ends       4 bytes each
//     frequencies     8 bytes each
//     alphabet        the symbols of the initial alphabet, end to end
//     alphabet_ends   4 bytes each
//     prefix
//     suffix
//
// A line is the run's name and, unless the run is empty, a space and two hexadecimal digits for each
// byte. The names are for whoever reads the file; the program goes by the order.
//
// Its answer is the line `pieces alphabet merges checksum`: the checksum goes over the piece bytes, the
// piece ends and the merges, from 0, and for each byte b, h becomes (h * 31 + b) mod 2^32. A refusal is
// `refused`, its number and the two numbers that it gives.
//
// No table has over 48 units, 8 symbols or 1,024 bytes in its runs, no answer over 400 pieces or 1,024
// piece bytes, and the file is no longer than 131,072 bytes: the rooms are made for that. What is beyond
// a room is not read.
#![tactic(auto)]

ghost use Rattle.std.specs.Prelude.{◌<◌, ◌≤◌, length};

use error::TrainError;
use std::io;
use std::io::Print;
use table::{Settings, Table};
use trainer::Trained;

const LF: u8 = 10;

const SPACE: u8 = 32;

// Writes a text and a number.
fn print(rt: &impl Print, before: &[u8], n: u64) -> io::Result<()> {
    rt.write_all(before)?;
    print!(rt; "{n}")
}

// The place behind the k-th byte b, or the text's end where there are not so many.
fn behind(s: &[u8], b: u8, k: usize) -> usize
    ensures upper_bound { result ≤ length s.now }
    ensures result_nonzero { 0 < k → 0 < length s.now → 0 < result }
{
    let mut left = k;
    for (at, x) in s.iter().enumerate() {
        if left == 0 {
            return at;
        }
        if *x == b {
            left -= 1;
        }
    }
    s.len()
}

// The digits of line number k, from 0: none where there is no such line, or its run is empty.
fn digits<'a>(s: &'a [u8], k: usize) -> &'a [u8] {
    let start = behind(s, LF, k);
    let rest = &s[start..];
    let end = behind(rest, LF, 1);
    let line = &rest[0..end];
    let name = behind(line, SPACE, 1);
    &line[name..]
}

// The checksum of some bytes behind those that come to `start`.
fn fold(start: u32, s: &[u8]) -> u32 {
    s.iter().fold(start, |h, b| {
        ((u64::from(h) * 31 + numbers::wide(*b)) % 4294967296) as u32
    })
}

// The checksum of an answer that is at the front of the rooms: 0 where it has no pieces, or where
// it would not fit, which no answer of training does.
// Stays: 0 where there is none, as the lines of `stdout` have it.
fn checksum(pieces: &[u8], ends: &[u8], merges: &[u8], count: u64, many: u64) -> u32 {
    if count == 0 {
        return 0;
    }
    if ((ends.len() / 4) as u64) < count {
        return 0;
    }
    if ((merges.len() / 8) as u64) < many {
        return 0;
    }
    let n = count as usize;
    let m = many as usize;
    let bytes = vocab::end_at(ends, n - 1);
    if pieces.len() < bytes {
        return 0;
    }
    let h = fold(0, &pieces[0..bytes]);
    let k = fold(h, &ends[0..n * 4]);
    fold(k, &merges[0..m * 8])
}

// Writes the line of what training came to.
fn tell(
    rt: &impl Print,
    r: Result<Trained, TrainError>,
    piece_bytes: &[u8],
    ends: &[u8],
    pairs: &[u8],
) -> io::Result<()> {
    match r {
        Ok(
            Trained {
                pieces,
                alphabet,
                merges,
            },
        ) => {
            print(rt, b"", pieces)?;
            print(rt, b" ", alphabet)?;
            print(rt, b" ", merges)?;
            print(
                rt,
                b" ",
                u64::from(checksum(piece_bytes, ends, pairs, pieces, merges)),
            )?;
        }
        Err(why) => {
            print(rt, b"refused ", why.number())?;
            print(rt, b" ", why.first())?;
            print(rt, b" ", why.second())?;
        }
    }
    rt.write_all(b"\n")
}

// Trains on a table and writes its line. The runs are pieces with these ends, numbered as the lines
// are, so that the settings are the room's first 32 bytes; a table with fewer has no line.
fn train(rt: &impl Print, room: &[u8], ends: &[u8]) -> io::Result<()> {
    if room.len() < 32 {
        return Ok(());
    }
    let mut work = [0u8; 61440];
    let mut pieces = [0u8; 1024];
    let mut piece_ends = [0u8; 1600];
    let mut merges = [0u8; 3200];
    let mut savings = [0u8; 3200];
    let t = Table {
        words: vocab::piece(room, ends, 1),
        word_ends: vocab::piece(room, ends, 2),
        frequencies: vocab::piece(room, ends, 3),
        alphabet: vocab::piece(room, ends, 4),
        alphabet_ends: vocab::piece(room, ends, 5),
        prefix: vocab::piece(room, ends, 6),
        suffix: vocab::piece(room, ends, 7),
        seeding: numbers::load8(room, 0),
    };
    let settings = Settings {
        vocab_size: numbers::load8(room, 8),
        min_frequency: numbers::load8(room, 16),
        max_piece_length: numbers::load8(room, 24),
    };
    let r = trainer::train(
        t,
        settings,
        &mut work,
        &mut pieces,
        &mut piece_ends,
        &mut merges,
        &mut savings,
    );
    tell(rt, r, &pieces, &piece_ends, &merges)
}

// Reads the table at the front of the text, its runs end to end, and trains on it.
fn table(rt: &impl Print, s: &[u8]) -> io::Result<()> {
    let mut room = [0u8; 1024];
    let mut ends = [0u8; 32];
    let mut end = 0;
    for k in 0..8 {
        end = inputs::spell(&mut room, end, digits(s, k));
        numbers::store4(&mut ends, k * 4, end as u32);
    }
    train(rt, &room[0..end], &ends)
}

// Goes through the tables, eight lines each.
fn run(rt: &impl Print, s: &[u8]) -> io::Result<()> {
    let mut at = 0;
    while at < s.len() {
        let rest = &s[at..];
        table(rt, rest)?;
        at += behind(rest, LF, 8);
    }
    Ok(())
}

fn main(rt: HostRuntime) -> io::Result<()> {
    let mut input = [0u8; 131072];
    let n = inputs::read_full(&mut rt.reader(), &mut input)?;
    run(&rt, &input[..n])
}
