// Spellings in bytes: a piece without its prefix, a unit with its decoration, two spellings joined.
//
// A length is told before anything is written, since a spelling that has no room is refused whole.
// A contract of what is written says the whole run at exit, by `laid`.
#![tactic(auto)]

ghost use Rattle.std.specs.Prelude.{◌≡◌, ◌++◌, ◌+◌, ◌<◌, ◌≤◌, ◌^◌, length};
ghost use Rattle.runs.specs.Parts.{part};
ghost use Rattle.rule.specs.Spelling.{leads, strip_prefix, joined};
ghost use Rattle.spelling.specs.Lengths.{joined_length};
ghost use Rattle.spelling.specs.Writing.{Written};

use spells::Spelling;
use vocab::Place;

// The piece without its prefix, if it carries one: a part of the piece, and no part of the prefix.
fn strip_prefix<'a, 'b>(piece: &'a [u8], prefix: &'b [u8]) -> &'a [u8]
    ensures { result.now ≡ strip_prefix prefix.now piece.now }
{
    piece.strip_prefix(prefix).unwrap_or(piece)
}

// How many bytes of a piece are left without its prefix.
#[tactic(auto, using(crate::proofs::Prefixes::stripped_length, crate::proofs::Prefixes::stripped_short))]
fn stripped_length(piece: &[u8], prefix: &[u8]) -> usize
    ensures { (result ≡ length (strip_prefix prefix.now piece.now)) × (result ≤ length piece.now) }
{
    strip_prefix(piece, prefix).len()
}

// Writes a unit with its decoration, and gives the place behind it.
pub fn decorate(run: &mut [u8], at: usize, spelling: Spelling) -> usize
    requires { at + (length spelling.prefix.now + (length spelling.unit.now + length spelling.suffix.now))
        ≤ length run.old }
    ensures { Written run.old run.new at
        (spelling.entry.prefix.now ++ (spelling.entry.unit.now ++ spelling.entry.suffix.now))
        (length spelling.entry.prefix.now + (length spelling.entry.unit.now + length spelling.entry.suffix.now))
        result }
{
    let Spelling {
        prefix,
        unit,
        suffix,
    } = spelling;
    runs::copy(run, at, prefix);
    let middle = at + prefix.len();
    runs::copy(run, middle, unit);
    let ending = middle + unit.len();
    runs::copy(run, ending, suffix);
    ending + suffix.len()
}

// The length of two spellings joined, the left one known by its length alone.
pub fn joined_length(left: usize, right: &[u8], prefix: &[u8]) -> usize
    requires { left + length right.now < 2 ^ 64 }
    ensures { result ≡ joined_length left prefix.now right.now }
{
    left + stripped_length(right, prefix)
}

// Joins two spellings that stand in the run below `at`: the left one, then the right one without
// its prefix. Gives the place behind them. The prefix is not copied, so that the run may be full.
pub fn join(run: &mut [u8], at: usize, left: Place, right: Place, prefix: &[u8]) -> usize
    requires { (left.start + left.length ≤ at) × (right.start + right.length ≤ at)
        × (at + joined_length left.length prefix.now (part right.start right.length run.old) ≤ length run.old) }
    ensures { Written run.old run.new at
        (joined prefix.now (part left.start left.length run.old) (part right.start right.length run.old))
        (joined_length left.length prefix.now (part right.start right.length run.old)) result }
{
    let rest = stripped_length(&run[right.start..right.start + right.length], prefix);
    runs::copy_within(run, at, left.start, left.length);
    let middle = at + left.length;
    runs::copy_within(run, middle, right.start + (right.length - rest), rest);
    middle + rest
}
