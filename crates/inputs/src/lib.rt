// What the programs share: reading all of an input into a room, and bytes that a text spells in
// hexadecimal digits.
#![tactic(auto)]

ghost use Rattle.std.specs.Prelude.{◌≡◌, ℕ, ◌+◌, ◌-◌, ◌/◌, ◌<◌, ◌≤◌, min, IfOk, length, take, slice_index};
ghost use Rattle.std.specs.Io.KnownBytes.{Consumes, IsAtEnd};
ghost use Rattle.inputs.specs.Spelling.{digit_of, byte_of};

use std::io;
use std::io::Read;

// The value of a hexadecimal digit, 0 of any other byte.
pub fn digit(b: u8) -> u8
    ensures value { result ≡ digit_of b }
    ensures small { result < 16 }
{
    match b {
        b'0'..=b'9' => b - b'0',
        b'a'..=b'f' => b - b'a' + 10,
        _ => 0,
    }
}

// Puts the bytes that a line spells into the room from `at` on, as many as there is place for, and
// answers where they end.
pub fn spell(room: &mut [u8], at: usize, line: &[u8]) -> usize
    requires { at ≤ length room.old }
    ensures end { result ≡ at + min (length line.now / 2) (length room.old - at) }
    ensures len { length room.new ≡ length room.old }
    ensures spelled { (k : ℕ) → at ≤ k → k < result → slice_index room.new k ≡ byte_of line.now (k - at) }
    ensures before { (k : ℕ) → k < at → slice_index room.new k ≡ slice_index room.old k }
    ensures behind { (k : ℕ) → result ≤ k → slice_index room.new k ≡ slice_index room.old k }
{
    let n = (line.len() / 2).min(room.len() - at);
    for i in 0..n {
        room[at + i] = digit(line[2 * i]) * 16 + digit(line[2 * i + 1]);
    }
    at + n
}

// Reads until the room is full or the input ends, and answers how many bytes came.
pub fn read_full<R: Read>(input: &mut R, room: &mut [u8]) -> io::Result<usize>
    ensures bound { IfOk result (λ n. n ≤ length room.new) }
    ensures len { length room.new ≡ length room.old }
    ensures bytes { IfOk result (λ n. Consumes (R.remaining input.old) (R.remaining input.new) (take n room.new)) }
    ensures end { IfOk result (λ n. n < length room.new → IsAtEnd (R.remaining input.new)) }
{
    let mut n = 0;
    while n < room.len() {
        let more = input.read(&mut room[n..])?;
        if more == 0 {
            return Ok(n);
        }
        n += more;
    }
    Ok(n)
}
