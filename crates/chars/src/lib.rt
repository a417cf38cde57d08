// The characters of a word, as RFC 3629 has them: `char_len` has a row for each alternative of the syntax in
// its section 4. Every sequence of bytes gets an answer.
#![tactic(auto)]

ghost use Rattle.std.specs.Prelude.{◌≡◌, ◌+◌, ◌<◌, length};
ghost use Rattle.rfc3629.specs.Rows.{heads, follow, char_len};
ghost use Rattle.chars.specs.Places.{rest, some_length};

// Tells whether an octet from low to high stands at i.
#[tactic(auto, using(crate::proofs::Places::octet_rules))]
fn octet(word: &[u8], i: usize, low: u8, high: u8) -> bool
    ensures { result ≡ heads low high (rest i word.now) }
{
    if word.len() <= i {
        return false;
    }
    if word[i] < low {
        return false;
    }
    word[i] <= high
}

// The length of the character whose first octet stands at `at`, where an octet from low to high and
// then n tails follow it.
#[tactic(auto, using(crate::proofs::Places::follow_rules))]
fn followed(word: &[u8], at: usize, low: u8, high: u8, n: usize) -> Option<usize>
    requires { at < length word.now }
    ensures { result ≡ some_length (follow low high n (rest (at + 1) word.now)) }
{
    if !octet(word, at + 1, low, high) {
        return None;
    }
    for k in 0..n {
        if !octet(word, at + 2 + k, 0x80, 0xBF) {
            return None;
        }
    }
    Some(2 + n)
}

// The length of the character at `at`, where one stands there: the alternatives of UTF8-char.
pub fn char_len(word: &[u8], at: usize) -> Option<usize>
    ensures { result ≡ some_length (char_len (rest at word.now)) }
{
    if word.len() <= at {
        return None;
    }
    match word[at] {
        // UTF8-1 = %x00-7F
        0x00..=0x7F => Some(1),
        // UTF8-2 = %xC2-DF UTF8-tail
        0xC2..=0xDF => followed(word, at, 0x80, 0xBF, 0),
        // UTF8-3 = %xE0 %xA0-BF UTF8-tail / %xE1-EC 2( UTF8-tail ) /
        //          %xED %x80-9F UTF8-tail / %xEE-EF 2( UTF8-tail )
        0xE0 => followed(word, at, 0xA0, 0xBF, 1),
        0xE1..=0xEC => followed(word, at, 0x80, 0xBF, 1),
        0xED => followed(word, at, 0x80, 0x9F, 1),
        0xEE..=0xEF => followed(word, at, 0x80, 0xBF, 1),
        // UTF8-4 = %xF0 %x90-BF 2( UTF8-tail ) / %xF1-F3 3( UTF8-tail ) /
        //          %xF4 %x80-8F 2( UTF8-tail )
        0xF0 => followed(word, at, 0x90, 0xBF, 2),
        0xF1..=0xF3 => followed(word, at, 0x80, 0xBF, 2),
        0xF4 => followed(word, at, 0x80, 0x8F, 2),
        _ => None,
    }
}
