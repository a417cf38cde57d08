// The reports of a merge, applied to the states of the pairs as they come: a count, the words that hold the
// pair, the marks. A pair that is touched for the first time in a merge is put on a list, so that only these are
// looked at when it is over.
#![tactic(auto)]

ghost use Rattle.std.specs.Prelude.{◌≡◌, true, cond};
ghost use Rattle.cells.specs.Cells.{cells};
ghost use Rattle.rule.specs.Rewriting.{before, after};
ghost use Rattle.marks.specs.Marks.{touched, gained, marking};
ghost use Rattle.step.specs.Step.{standing, following, reports_of};
ghost use Rattle.reports.specs.Reports.{CanTouch, TouchDone, CanRaise, RaiseDone, CanLower, LowerDone, swapped, CanSide, SideDone, CanReport, ReportDone};

use marks::Mark;
use pairs::{Pair, Pairs};
use step::{Rule, Step};

// The marks of a pair that is touched, and has gained or not.
fn mark(was: u8, gain: bool) -> u8
    ensures { result ≡ cond gain (marking gained true (marking touched true was)) (marking touched true was) }
{
    let is = marks::set(Mark::Touched, was);
    if gain {
        marks::set(Mark::Gained, is)
    } else {
        is
    }
}

// Marks a pair as touched, and as gained where it has gained, and puts its record on the list of n unless it is
// there.
fn touch(room: &mut [u8], pair: Pair, n: usize, gain: bool) -> usize
    requires { CanTouch pair.pairs pair.key pair.number n (cells room.old) }
    ensures { TouchDone pair.pairs pair.key pair.number n gain (cells room.old) (cells room.new) result }
{
    let was = fields::marks(room, pair);
    let is = mark(was, gain);
    fields::set_marks(room, pair, is);
    if marks::is_set(Mark::Touched, was) {
        return n;
    }
    cells::put_cell(room, pair.pairs.touched() + n, pair.number as u64);
    n + 1
}

// +1, f times, for the pair (left,right) in the word w.
// Stays: f and w as two numbers: `lower` takes f alone; in joining f comes from an array, w from the list.
pub fn raise(room: &mut [u8], p: Pairs, n: usize, left: u32, right: u32, f: u64, w: usize) -> usize
    requires { CanRaise p n left right f (cells room.old) }
    ensures { RaiseDone p n left right f w (cells room.old) (cells room.new) result }
{
    let k = states::key(left, right);
    let pair = Pair {
        pairs: p,
        key: k,
        number: pairs::entry(room, p, k),
    };
    let c = fields::count(room, pair);
    fields::set_count(room, pair, c + f);
    notes::note(room, pair, w as u64);
    touch(room, pair, n, true)
}

// -1, f times. A pair that a word holds has a record.
fn lower(room: &mut [u8], p: Pairs, n: usize, left: u32, right: u32, f: u64) -> usize
    requires { CanLower p n left right f (cells room.old) }
    ensures { LowerDone p n left right f (cells room.old) (cells room.new) result }
{
    let k = states::key(left, right);
    let pair = Pair {
        pairs: p,
        key: k,
        number: pairs::find(room, p, k).unwrap(),
    };
    let c = fields::count(room, pair);
    fields::set_count(room, pair, c - f);
    touch(room, pair, n, false)
}

// One pair is gone from the word w and another has come, f times each: -1 of `old` and +1 of `new`.
fn swap(
    room: &mut [u8],
    p: Pairs,
    n: usize,
    old: (u32, u32),
    new: (u32, u32),
    f: u64,
    w: usize,
) -> usize
    requires { CanSide p n (swapped old.0 old.1 new.0 new.1) f (cells room.old) }
    ensures { SideDone p n (swapped old.0 old.1 new.0 new.1) f w (cells room.old) (cells room.new) result }
{
    let m = lower(room, p, n, old.0, old.1, f);
    raise(room, p, m, new.0, new.1, f, w)
}

// The reports of a rewrite where a symbol stands before it: (previous,a) -1 and (previous,x) +1.
fn report_before(
    room: &mut [u8],
    p: Pairs,
    n: usize,
    previous: Option<u32>,
    rule: Rule,
    f: u64,
    w: usize,
) -> usize
    requires { CanSide p n (before rule.a rule.x (standing previous)) f (cells room.old) }
    ensures { SideDone p n (before rule.a rule.x (standing previous)) f w (cells room.old) (cells room.new) result }
{
    match previous {
        Some(s) => swap(room, p, n, (s, rule.a), (s, rule.x), f, w),
        None => n,
    }
}

// Where a symbol follows: (b,next) -1 and (x,next) +1.
fn report_after(
    room: &mut [u8],
    p: Pairs,
    n: usize,
    next: Option<u32>,
    rule: Rule,
    f: u64,
    w: usize,
) -> usize
    requires { CanSide p n (after rule.b rule.x (following next)) f (cells room.old) }
    ensures { SideDone p n (after rule.b rule.x (following next)) f w (cells room.old) (cells room.new) result }
{
    match next {
        Some(s) => swap(room, p, n, (rule.b, s), (rule.x, s), f, w),
        None => n,
    }
}

// The reports of one step in the word w, each f times.
pub fn report(room: &mut [u8], p: Pairs, n: usize, st: Step, rule: Rule, f: u64, w: usize) -> usize
    requires { CanReport p n (reports_of rule.a rule.b rule.x st) f (cells room.old) }
    ensures { ReportDone p n (reports_of rule.a rule.b rule.x st) f w (cells room.old) (cells room.new) result }
{
    let m = report_before(room, p, n, st.behind, rule, f, w);
    report_after(room, p, m, st.ahead, rule, f, w)
}
