// The byte order of two runs, or of two parts of a run.
//
// A part is named by its place and its length, and its bound is stated as `place + length ≤ length of the run`.
#![tactic(auto)]

ghost use Rattle.std.specs.Prelude.{◌≡◌, ◌+◌, ◌≤◌, length};
ghost use Rattle.runs.specs.Parts.{part};
ghost use Rattle.order.specs.Order.{compared, same};

use std::cmp::Ordering;

// Compares two runs, or two parts lent of one run or of two.
#[tactic(auto, using(crate::proofs::Comparing::compared_std))]
pub fn compare(a: &[u8], b: &[u8]) -> Ordering
    ensures { result ≡ compared a.now b.now }
{
    a.cmp(b)
}

// Compares two parts of one run.
// Stays: by place and length, as the clause of this public function has it (`part`).
#[tactic(auto, using(crate::proofs::Comparing::compare_lent))]
pub fn compare_within(run: &[u8], at: usize, m: usize, from: usize, n: usize) -> Ordering
    requires { (at + m ≤ length run.now) × (from + n ≤ length run.now) }
    ensures { result ≡ compared (part at m run.now) (part from n run.now) }
{
    compare(&run[at..at + m], &run[from..from + n])
}

// Tells whether two runs, or two parts lent of one run or of two, are the same bytes.
#[tactic(auto, using(crate::proofs::Comparing::same_std))]
pub fn equal(a: &[u8], b: &[u8]) -> bool
    ensures { result ≡ same a.now b.now }
{
    a == b
}
