// `merge_symbols` over two lent runs of bytes: a word of symbols, 4 bytes each, in which a pair is
// rewritten in place, and a list of reports, 16 bytes each: left, right, then 1 or -1 in 8 bytes.
//
// The reports are counted in a first pass, so that a list that is too short is refused with nothing
// written. Both passes go by the step of `step`.
#![tactic(auto)]

ghost use Rattle.std.specs.Prelude.{◌≡◌, ◌++◌, ◌+◌, ◌*◌, ◌≤◌, ◌<◌, ◌/◌, [], ◌∷◌, length, drop, is_some, slice_get};
ghost use Rattle.runs.specs.Parts.{laid};
ghost use Rattle.numbers.specs.Little.{spell, numbers};
ghost use Rattle.rule.specs.Rewriting.{bit, less, more, before, after, reports};
ghost use Rattle.step.specs.Step.{standing, following, reports_of, StepAt};
ghost use Rattle.symbols.specs.Writing.{Wrote};
ghost use Rattle.symbols.specs.Merging.{Rewrote, Merging};

use error::MergeError;
use step::{Rule, Step};

// How many occurrences were rewritten, how many symbols are kept, and how many reports are written.
#[derive(Clone, Copy)]
pub struct Merged {
    pub rewrites: u64,
    pub kept: u64,
    pub reports: u64,
}

// The symbol at i, if there is one.
#[tactic(auto, using(crate::proofs::Passes::symbol_at, crate::proofs::Passes::symbol_past))]
fn symbol(symbols: &[u8], i: usize) -> Option<u32>
    ensures { result ≡ slice_get (numbers 4 symbols.now) i }
{
    if i < symbols.len() / 4 {
        return Some(numbers::load4(symbols, i * 4));
    }
    None
}

// The step at the front of the symbols from i on. `previous` is the symbol that stands before in the
// rewritten word, if any.
// Stays: the twin of merge::look: this reads numbers of 4 bytes, that one halves of cells; the rule is `decide`.
fn look(symbols: &[u8], i: usize, previous: Option<u32>, rule: Rule) -> Step
    requires { i < length symbols.now / 4 }
    ensures { StepAt rule.a rule.b rule.x previous (drop i (numbers 4 symbols.now)) result }
{
    let s = numbers::load4(symbols, i * 4);
    let t = symbol(symbols, i + 1);
    let u = symbol(symbols, i + 2);
    step::decide(rule, previous, s, t, u)
}

// Two reports for a neighbour, if there is one.
fn two(neighbour: Option<u32>) -> usize
    ensures { (result ≡ 2 * bit (is_some neighbour)) × (result ≤ 2) }
{
    match neighbour {
        Some(_) => 2,
        None => 0,
    }
}

// How many reports rewriting a pair makes.
fn count_reports(symbols: &[u8], rule: Rule) -> usize
    ensures { result ≡ length (reports rule.a rule.b rule.x (numbers 4 symbols.now)) }
{
    let mut i = 0;
    let mut count = 0;
    let mut previous = None;
    while i < symbols.len() / 4 {
        let st = look(symbols, i, previous, rule);
        count += two(st.behind) + two(st.ahead);
        i += st.took;
        previous = Some(st.symbol);
    }
    count
}

// Writes one report in the 16 bytes at `at`.
#[tactic(auto, using(crate::proofs::Writing::stored_report))]
fn write_report(changes: &mut [u8], at: usize, left: u32, right: u32, by: u64)
    requires { at + 16 ≤ length changes.old }
    ensures { changes.new ≡ laid changes.old at (spell 4 left ++ spell 4 right ++ spell 8 by) }
{
    numbers::store4(changes, at, left);
    numbers::store4(changes, at + 4, right);
    numbers::store8(changes, at + 8, by);
}

// Writes two reports, that (l,r) has one less and (p,q) one more; the place after them.
#[tactic(auto, using(crate::proofs::Writing::wrote_two))]
fn write_two(changes: &mut [u8], at: usize, l: u32, r: u32, p: u32, q: u32) -> usize
    requires { at + 32 ≤ length changes.old }
    ensures { Wrote (less l r ∷ more p q ∷ []) at changes.old changes.new result }
{
    write_report(changes, at, l, r, u64::MAX);
    write_report(changes, at + 16, p, q, 1);
    at + 32
}

// Writes the reports of a step on the symbol before it, if there is one; the place after them.
#[tactic(auto, using(crate::proofs::Writing::wrote_none), unfolding(rule::specs::Rewriting::before))]
fn write_before(changes: &mut [u8], at: usize, rule: Rule, previous: Option<u32>) -> usize
    requires { at + 16 * length (before rule.a rule.x (standing previous)) ≤ length changes.old }
    ensures { Wrote (before rule.a rule.x (standing previous)) at changes.old changes.new result }
{
    match previous {
        Some(p) => write_two(changes, at, p, rule.a, p, rule.x),
        None => at,
    }
}

// Writes the reports of a step on the symbol that follows, if there is one; the place after them.
#[tactic(auto, using(crate::proofs::Writing::wrote_none), unfolding(rule::specs::Rewriting::after))]
fn write_after(changes: &mut [u8], at: usize, rule: Rule, next: Option<u32>) -> usize
    requires { at + 16 * length (after rule.b rule.x (following next)) ≤ length changes.old }
    ensures { Wrote (after rule.b rule.x (following next)) at changes.old changes.new result }
{
    match next {
        Some(n) => write_two(changes, at, rule.b, n, rule.x, n),
        None => at,
    }
}

// Writes the reports of a step; the place after them.
fn write_reports(changes: &mut [u8], at: usize, rule: Rule, st: Step) -> usize
    requires { at + 16 * length (reports_of rule.a rule.b rule.x st) ≤ length changes.old }
    ensures { Wrote (reports_of rule.a rule.b rule.x st) at changes.old changes.new result }
{
    let middle = write_before(changes, at, rule, st.behind);
    write_after(changes, middle, rule, st.ahead)
}

// Rewrites a pair in place and writes the reports, for which there is room; how many symbols are
// kept. A rewrite only shortens the word, so that what is written never overtakes what is read.
fn rewrite(symbols: &mut [u8], rule: Rule, changes: &mut [u8]) -> usize
    requires { 16 * length (reports rule.a rule.b rule.x (numbers 4 symbols.old)) ≤ length changes.old }
    ensures { Rewrote rule.a rule.b rule.x symbols.old changes.old symbols.new changes.new result }
{
    let mut i = 0;
    let mut kept = 0;
    let mut at = 0;
    let mut last = None;
    while i < symbols.len() / 4 {
        let st = look(symbols, i, last, rule);
        at = write_reports(changes, at, rule, st);
        numbers::store4(symbols, kept * 4, st.symbol);
        i += st.took;
        kept += 1;
        last = Some(st.symbol);
    }
    kept
}

// Rewrites a pair in a word, in place, and reports how the counts of the other pairs change. The
// symbol that the pair becomes may be one of the pair, or any symbol of the word. Where merging is
// refused, nothing is written.
pub fn merge_symbols(
    symbols: &mut [u8],
    rule: Rule,
    changes: &mut [u8],
) -> Result<Merged, MergeError>
    ensures { Merging symbols.old rule.a rule.b rule.x changes.old result symbols.new changes.new }
{
    if symbols.len() % 4 != 0 {
        return Err(MergeError::BadShape);
    }
    if changes.len() % 16 != 0 {
        return Err(MergeError::BadShape);
    }
    let reports = count_reports(symbols, rule);
    if changes.len() / 16 < reports {
        return Err(MergeError::ChangeRoom);
    }
    let kept = rewrite(symbols, rule, changes);
    // each rewrite costs the word one symbol
    let rewrites = symbols.len() / 4 - kept;
    Ok(Merged {
        rewrites: rewrites as u64,
        kept: kept as u64,
        reports: reports as u64,
    })
}
