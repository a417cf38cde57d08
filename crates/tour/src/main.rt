// A tour of the ground: numbers in bytes, cells, moves and the byte order, written out line by line.
//
// The file `stdout` holds what another language's own little-endian, slice and ordering operations
// give, so the run compares the two.
#![tactic(auto)]

ghost use Rattle.std.specs.Prelude.{◌+◌, ◌≤◌};

use std::cmp::Ordering;
use std::io;
use std::io::Print;

const VALUES: [u64; 8] = [
    0,
    3,
    255,
    256,
    65536,
    4294967295,
    9007199254740991,
    18446744073709551615,
];

// The bytes of a run, two hexadecimal digits each.
fn bytes(rt: &impl Print, s: &[u8]) -> io::Result<()> {
    for b in s {
        print!(rt; "{b:02x} ")?;
    }
    Ok(())
}

// A number in 8 bytes of a run that held EE before, and as it is read again.
fn stored(rt: &impl Print, v: u64) -> io::Result<()> {
    let mut run = [0xEEu8; 12];
    numbers::store8(&mut run, 3, v);
    bytes(rt, &run)?;
    println!(rt; "= {}", numbers::load8(&run, 3))
}

fn stored_all(rt: &impl Print) -> io::Result<()> {
    for v in VALUES {
        stored(rt, v)?;
    }
    Ok(())
}

// A part of eight letters copied over another part of them.
// Stays: places and a length, as runs::copy_within takes them.
fn moved(rt: &impl Print, at: usize, from: usize, n: usize) -> io::Result<()>
    requires { (at + n ≤ 8) × (from + n ≤ 8) }
{
    let mut run = [97u8, 98, 99, 100, 101, 102, 103, 104];
    runs::copy_within(&mut run, at, from, n);
    rt.write_all(&run)?;
    rt.write_all(b"\n")
}

// Two words and how they stand.
fn ordered(rt: &impl Print, a: &[u8], b: &[u8]) -> io::Result<()> {
    rt.write_all(a)?;
    match order::compare(a, b) {
        Ordering::Less => rt.write_all(b" < ")?,
        Ordering::Equal => rt.write_all(b" = ")?,
        Ordering::Greater => rt.write_all(b" > ")?,
    }
    rt.write_all(b)?;
    rt.write_all(b"\n")
}

fn main(rt: HostRuntime) -> io::Result<()> {
    stored_all(&rt)?;
    moved(&rt, 2, 0, 5)?;
    moved(&rt, 0, 2, 5)?;
    ordered(&rt, b"ab", b"abc")?;
    ordered(&rt, b"b", b"abc")?;
    ordered(&rt, b"abc", b"abc")
}
