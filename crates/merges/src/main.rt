// Merging symbols through the door: examples 11 and 12 of document 01; one word with runs of any
// length in bytes; then every word of up to six symbols over three, with every pair and every new
// symbol among four, and a list of 0 to 9 places (a word of six has at most 8 reports, so that each
// list is once exactly long enough and once one place short).
//
// An example's outcome is written in full. Of each other case the whole outcome, the number returned
// and every byte of the three runs, goes into a checksum, and with it the bytes behind the lent
// parts, which must stay. The file `stdout` was made by `python3 tests/merges.py`, which does on
// lists of numbers what document 01 says and shares no code with the library.
#![tactic(auto)]

ghost use Rattle.std.specs.Prelude.{◌*◌, ◌≤◌, length};

use std::io;
use std::io::Print;

// The symbols of the words, `a`, `b` and 0, and a fourth that occurs in none.
const SYMBOLS: [u32; 4] = [97, 98, 0, 0xFF02_0100];

// How many words there are of each length.
const WORDS: [u16; 7] = [1, 3, 9, 27, 81, 243, 729];

// What a checksum is before its first byte.
const START: u32 = 2166136261;

fn hex_line(rt: &impl Print, name: &[u8], s: &[u8]) -> io::Result<()> {
    rt.write_all(name)?;
    for b in s {
        print!(rt; "{b:02x}")?;
    }
    rt.write_all(b"\n")
}

// The checksum of some bytes behind those that come to `start`.
fn fold(start: u32, s: &[u8]) -> u32 {
    s.iter().fold(start, |sum, b| {
        ((u64::from(sum) + numbers::wide(*b)) * 16777619 % 4294967296) as u32
    })
}

// One case: a word of so many symbols by its number, the pair and what it becomes, and how many bytes
// are lent of the word, of the list and of the answer run.
#[derive(Clone, Copy)]
struct Case {
    symbols: usize,
    number: u64,
    left: u32,
    right: u32,
    joined: u32,
    word: usize,
    list: usize,
    told: usize,
}

// What a case comes to: the number returned, and the three runs with what stands behind the lent parts.
#[derive(Clone, Copy)]
struct Outcome {
    returned: u64,
    symbols: [u8; 24],
    changes: [u8; 144],
    answer: [u8; 72],
}

// The word of n symbols with this number, its first symbol the lowest digit in base three.
fn spell(run: &mut [u8], n: usize, number: u64)
    requires { n * 4 ≤ length run.old }
{
    let mut rest = number;
    for i in 0..n {
        numbers::store4(run, i * 4, SYMBOLS[(rest % 3) as usize]);
        rest /= 3;
    }
}

// Merges a case's pair in its word.
fn merge(c: Case) -> Outcome
    requires { (c.symbols ≤ 6) × (c.word ≤ 24) × (c.list ≤ 144) × (c.told ≤ 72) }
{
    let mut symbols = [0xA5u8; 24];
    let mut changes = [0xA5u8; 144];
    let mut answer = [0x5Au8; 72];
    spell(&mut symbols, c.symbols, c.number);
    let returned = door::rindovesh_merge_symbols(
        &mut symbols[..c.word],
        c.left,
        c.right,
        c.joined,
        &mut changes[..c.list],
        &mut answer[..c.told],
    );
    Outcome {
        returned,
        symbols,
        changes,
        answer,
    }
}

// Writes an outcome in full.
fn write(rt: &impl Print, o: &Outcome) -> io::Result<()> {
    print!(rt; "{}", o.returned)?;
    hex_line(rt, b"\nsymbols ", &o.symbols)?;
    hex_line(rt, b"changes ", &o.changes)?;
    hex_line(rt, b"answer ", &o.answer)
}

// The checksum of an outcome behind those that come to `start`.
fn checksum(start: u32, o: &Outcome) -> u32 {
    let sum = fold(start, &[(o.returned % 256) as u8]);
    fold(fold(fold(sum, &o.symbols), &o.changes), &o.answer)
}

// The word a a a with a list of two places, and a b a b with one of four and one of three.
fn examples(rt: &impl Print) -> io::Result<()> {
    let three = Case {
        symbols: 3,
        number: 0,
        left: 97,
        right: 97,
        joined: 256,
        word: 12,
        list: 32,
        told: 64,
    };
    let four = Case {
        symbols: 4,
        number: 30,
        right: 98,
        word: 16,
        list: 64,
        ..three
    };
    rt.write_all(b"example 11: ")?;
    write(rt, &merge(three))?;
    rt.write_all(b"example 12: ")?;
    write(rt, &merge(four))?;
    rt.write_all(b"example 12, one place short: ")?;
    write(rt, &merge(Case { list: 48, ..four }))
}

fn number(rt: &impl Print, v: u64) -> io::Result<()> {
    print!(rt; "{v} ")
}

// How many cases there were, and their checksum.
fn line(rt: &impl Print, cases: u64, sum: u32) -> io::Result<()> {
    number(rt, cases)?;
    println!(rt; "{sum:08x}")
}

// The word a b a b a b, whose number has the digits 0 1 0 1 0 1, with 0 to 24 bytes of it, an answer
// run that is one byte short, exactly long enough or longer, and a list of 0 to 144 bytes.
fn shapes(rt: &impl Print) -> io::Result<()> {
    let mut sum = START;
    for word in 0..25 {
        for told in [63, 64, 72] {
            for list in 0..145 {
                let c = Case {
                    symbols: 6,
                    number: 273,
                    left: 97,
                    right: 98,
                    joined: 256,
                    word,
                    list,
                    told,
                };
                sum = checksum(sum, &merge(c));
            }
        }
    }
    line(rt, 25 * 3 * 145, sum)
}

// How a pair and what it becomes stand to one another.
#[derive(Clone, Copy, PartialEq, Eq)]
enum Kind {
    AllEqual,
    EqualPair,
    LeftStays,
    RightStays,
    AllDiffer,
}

// The kinds in the order of their numbers.
const KINDS: [Kind; 5] = [
    Kind::AllEqual,
    Kind::EqualPair,
    Kind::LeftStays,
    Kind::RightStays,
    Kind::AllDiffer,
];

impl Kind {
    // The kind of a pair and what it becomes, each by its place among the symbols.
    fn of(left: usize, right: usize, joined: usize) -> Kind {
        match (left == right, joined == left, joined == right) {
            (true, true, _) => Kind::AllEqual,
            (true, false, _) => Kind::EqualPair,
            (false, true, _) => Kind::LeftStays,
            (false, false, true) => Kind::RightStays,
            (false, false, false) => Kind::AllDiffer,
        }
    }
}

// All words of n symbols, of which there are `many`, each with the pairs and new symbols of one kind
// and with a list of 0 to 9 places.
fn words(rt: &impl Print, n: usize, many: u16, k: Kind) -> io::Result<()>
    requires { n ≤ 6 }
{
    let mut sum = START;
    let mut cases = 0;
    for t in 0..many as usize * 640 {
        let a = t / 160 % 4;
        let b = t / 40 % 4;
        let x = t / 10 % 4;
        if Kind::of(a, b, x) == k {
            let c = Case {
                symbols: n,
                number: (t / 640) as u64,
                left: SYMBOLS[a],
                right: SYMBOLS[b],
                joined: SYMBOLS[x],
                word: n * 4,
                list: t % 10 * 16,
                told: 72,
            };
            sum = checksum(sum, &merge(c));
            cases += 1;
        }
    }
    line(rt, cases, sum)
}

fn main(rt: HostRuntime) -> io::Result<()> {
    examples(&rt)?;
    rt.write_all(b"runs of any length: ")?;
    shapes(&rt)?;
    rt.write_all(b"by length and kind:\n")?;
    for n in 0..7 {
        for k in 0..5 {
            number(&rt, n as u64)?;
            number(&rt, k as u64)?;
            words(&rt, n, WORDS[n], KINDS[k])?;
        }
    }
    Ok(())
}
