// Words at the bounds of UTF-8, cut under Chars.
//
// `stdin` has a word to a line, two hexadecimal digits to a byte, and `words.py` says which words. Of each
// a line is written: c if it is cut into characters or b if into bytes, the number of its units, their
// lengths one after the other, = if they sum up to the word's length or ! if not, and the number of its
// units under Bytes. The last line is the number of words. `stdout` holds what Python's strict UTF-8
// decoder says of the same words, so the run compares the two.
#![tactic(auto)]

ghost use Rattle.std.specs.Prelude.{◌≤◌, length};

use std::io;
use std::io::Print;
use text::Seeding;

fn write_number(rt: &impl Print, n: usize) -> io::Result<()> {
    print!(rt; "{n}")
}

// Writes the lengths of a word's units, and whether they sum up to the whole.
fn lengths(rt: &impl Print, word: &[u8], whole: bool) -> io::Result<()> {
    let mut at = 0;
    let mut sum = 0;
    while at < word.len() {
        let end = text::next_unit(word, at, whole);
        write_number(rt, end - at)?;
        sum += end - at;
        at = end;
    }
    if sum == word.len() {
        rt.write_all(b"=")
    } else {
        rt.write_all(b"!")
    }
}

// Writes the line of a word.
fn report(rt: &impl Print, word: &[u8]) -> io::Result<()> {
    let whole = text::whole(word, Seeding::Chars);
    if whole {
        rt.write_all(b"c")?;
    } else {
        rt.write_all(b"b")?;
    }
    write_number(rt, text::count_units(word, Seeding::Chars))?;
    rt.write_all(b":")?;
    lengths(rt, word, whole)?;
    write_number(rt, text::count_units(word, Seeding::Bytes))?;
    rt.write_all(b"\n")
}

// A word stands in a room of tails: what looked past its end would take them for its own.
fn word(rt: &impl Print, line: &[u8]) -> io::Result<()> {
    let mut room = [0x80u8; 64];
    let to = inputs::spell(&mut room, 8, line);
    report(rt, &room[8..to])
}

// Where the line at `at` ends: at its LF, or with the input.
fn line_end(s: &[u8], at: usize) -> usize
    requires { at ≤ length s.now }
    ensures { (at ≤ result) × (result ≤ length s.now) }
{
    match s[at..].iter().position(|b| *b == b'\n') {
        Some(n) => at + n,
        None => s.len(),
    }
}

fn run(rt: &impl Print, s: &[u8]) -> io::Result<()> {
    let mut at = 0;
    let mut n = 0;
    while at < s.len() {
        let end = line_end(s, at);
        word(rt, &s[at..end])?;
        at = end + 1;
        n += 1;
    }
    write_number(rt, n)?;
    rt.write_all(b"\n")
}

fn main(rt: HostRuntime) -> io::Result<()> {
    let mut input = [0u8; 131072];
    let n = inputs::read_full(&mut rt.reader(), &mut input)?;
    run(&rt, &input[..n])
}
