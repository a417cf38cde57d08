// Reading a text as a word table: lines of a word, a space, a frequency and LF.
//
// A text is judged as a whole before anything is written, so that a refusal leaves the three lent
// runs as they were. Every place is a place in the text or in one line of it.
#![tactic(auto)]

ghost use Rattle.std.specs.Prelude.{◌≡◌, true, not, ◌+◌, ◌<◌, ◌≤◌, ◌==◌, length, IfSome};
ghost use Rattle.std.specs.List.{position};
ghost use Rattle.std.specs.Char.{is_ascii_digit};
ghost use Rattle.lines.specs.Lines.{lines, well_formed, too_long, first_bad};
ghost use Rattle.lines.specs.Table.{no_room, Read, Filled};
ghost use Rattle.lines.specs.Places.{place_of, digits_end, value_at, Fits, Sought, Line, CanWrite, Wrote, Going};

// What ends a line.
const LF: u8 = 10;

// What stands between the word and its frequency.
const SPACE: u8 = 32;

// A frequency has at most so many digits, and then fits 8 bytes.
const MOST_DIGITS: usize = 18;

// A text has at most so many bytes.
const MOST_BYTES: usize = 1024;

// A text has at most so many lines.
const MOST_LINES: usize = 64;

// Where the first such byte stands.
fn find(run: &[u8], byte: u8) -> Option<usize>
    ensures { result ≡ position (λ b. b == byte) run.now }
{
    run.iter().position(|b| *b == byte)
}

// Where the first byte that is no digit stands.
fn find_other(run: &[u8]) -> Option<usize>
    ensures { result ≡ position (λ b. not (is_ascii_digit b)) run.now }
{
    run.iter().position(|b| !b.is_ascii_digit())
}

// Where the first such byte from `from` on stands: at the end where there is none.
fn find_from(run: &[u8], from: usize, byte: u8) -> usize
    requires { from ≤ length run.now }
    ensures { (result ≡ place_of byte run.now from) × (from ≤ result) × (result ≤ length run.now) }
{
    match find(&run[from..], byte) {
        Some(i) => from + i,
        None => run.len(),
    }
}

// Where the digits from `from` on end.
// Stays: the end where there is none (`place_of`, `digits_end`): the last line may lack its LF.
fn digits_end(run: &[u8], from: usize) -> usize
    requires { from ≤ length run.now }
    ensures { (result ≡ digits_end run.now from) × (from ≤ result) × (result ≤ length run.now) }
{
    match find_other(&run[from..]) {
        Some(i) => from + i,
        None => run.len(),
    }
}

// What the digits that a run begins with come to.
fn value(run: &[u8]) -> u64
    requires { Fits run.now 0 0 }
    ensures { result ≡ value_at run.now 0 0 }
{
    let mut v = 0;
    for b in run {
        if !b.is_ascii_digit() {
            return v;
        }
        v = v * 10 + u64::from(b - b'0');
    }
    v
}

// Where the line at `at` ends: behind its LF, or where the text does.
fn line_end(text: &[u8], at: usize) -> usize
    requires { at < length text.now }
    ensures { Line text.now at result }
{
    let end = find_from(text, at, LF);
    if end < text.len() {
        return end + 1;
    }
    end
}

// How many lines a text has.
fn count_lines(text: &[u8]) -> usize
    ensures { (result ≡ length (lines text.now)) × (result ≤ length text.now) }
{
    let mut at = 0;
    let mut n = 0;
    while at < text.len() {
        at = line_end(text, at);
        n += 1;
    }
    n
}

// Tells whether a line is a word, one space, 1 to 18 digits and LF.
fn is_well_formed(line: &[u8]) -> bool
    ensures { result ≡ well_formed line.now }
{
    let space = find_from(line, 0, SPACE);
    if space == 0 {
        return false;
    }
    if line.len() <= space {
        return false;
    }
    let end = digits_end(line, space + 1);
    if end == space + 1 {
        return false;
    }
    if space + 1 + MOST_DIGITS < end {
        return false;
    }
    if end + 1 != line.len() {
        return false;
    }
    line[end] == LF
}

// The place of the first malformed line, from 0.
fn first_bad(text: &[u8]) -> Option<usize>
    ensures sought { Sought result (first_bad text.now) (length (lines text.now)) }
    ensures bound { IfSome result (λ n. n < length text.now) }
{
    let mut at = 0;
    let mut n = 0;
    while at < text.len() {
        let end = line_end(text, at);
        if !is_well_formed(&text[at..end]) {
            return Some(n);
        }
        at = end;
        n += 1;
    }
    None
}

// Writes a line's word behind the others, its end and its frequency. Gives where the word ends.
fn write_line(
    line: &[u8],
    n: usize,
    used: usize,
    words: &mut [u8],
    word_ends: &mut [u8],
    frequencies: &mut [u8],
) -> usize
    requires { CanWrite line.now n used (length words.old) (length word_ends.old) (length frequencies.old) }
    ensures { Wrote line.now n used result words.old word_ends.old frequencies.old
        words.new word_ends.new frequencies.new }
{
    let space = find_from(line, 0, SPACE);
    let end = used + space;
    let frequency = value(&line[space + 1..]);
    runs::copy(words, used, &line[..space]);
    numbers::store4(word_ends, n * 4, end as u32);
    numbers::store8(frequencies, n * 8, frequency);
    end
}

// Writes the words of a text that is not malformed, their ends and their frequencies. Gives how many
// bytes the words have.
fn write_table(text: &[u8], words: &mut [u8], word_ends: &mut [u8], frequencies: &mut [u8]) -> usize
    requires { Going (lines text.now) (lines text.now) words.old word_ends.old frequencies.old 0 0 words.old word_ends.old frequencies.old }
    ensures { Filled (lines text.now) result words.old word_ends.old frequencies.old
        words.new word_ends.new frequencies.new }
{
    let mut at = 0;
    let mut n = 0;
    let mut used = 0;
    while at < text.len() {
        let end = line_end(text, at);
        used = write_line(&text[at..end], n, used, words, word_ends, frequencies);
        at = end;
        n += 1;
    }
    used
}

// Tells whether a text has too many bytes or lines.
#[tactic(auto, unfolding(crate::specs::Lines::too_long))]
fn is_too_long(text: &[u8]) -> bool
    ensures { result ≡ too_long text.now }
{
    MOST_BYTES < text.len() || MOST_LINES < count_lines(text)
}

// Tells whether a run has no room for the words, the ends or the frequencies of a longest text.
#[tactic(auto, unfolding(crate::specs::Table::no_room))]
fn has_no_room(words: usize, ends: usize, frequencies: usize) -> bool
    ensures { result ≡ no_room words ends frequencies }
{
    words < MOST_BYTES || ends < 4 * MOST_LINES || frequencies < 8 * MOST_LINES
}

// What a table has: so many words, which have so many bytes.
#[derive(Clone, Copy)]
pub struct Parsed {
    pub count: usize,
    pub bytes: usize,
}

// Why a text is no table.
#[derive(Clone, Copy)]
pub enum ParseError {
    // A run is too short for a longest table.
    NoRoom,
    // The text has too many bytes or lines.
    TooLong,
    // The first malformed line has this number, from 1.
    BadLine(usize),
}

// Reads a text as a word table. The runs have 1,024, 256 and 512 bytes at least.
pub fn parse(
    text: &[u8],
    words: &mut [u8],
    word_ends: &mut [u8],
    frequencies: &mut [u8],
) -> Result<Parsed, ParseError>
    ensures { Read text.now result words.old word_ends.old frequencies.old
        words.new word_ends.new frequencies.new }
{
    if has_no_room(words.len(), word_ends.len(), frequencies.len()) {
        return Err(ParseError::NoRoom);
    }
    if is_too_long(text) {
        return Err(ParseError::TooLong);
    }
    if let Some(bad) = first_bad(text) {
        return Err(ParseError::BadLine(bad + 1));
    }
    let count = count_lines(text);
    let bytes = write_table(text, words, word_ends, frequencies);
    Ok(Parsed { count, bytes })
}
