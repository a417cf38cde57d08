// What is known of each pair while a merge changes the words, as definitions (specs/) on plain functions from
// pairs to states, and that it tracks the words (proofs/). Of code only a pair's number.
#![tactic(auto)]

ghost use Rattle.std.specs.Prelude.{◌≡◌, ◌<◌};
ghost use Rattle.states.specs.State as states;

// A pair as one number, in the order of pairs.
// Stays: left and right as two numbers: they are numbers of pieces too, which lengths takes singly.
pub fn key(left: u32, right: u32) -> u64
    requires { left < states.most }
    ensures { result ≡ states.key left right }
{
    (left as u64) * 0x1_0000_0000 + (right as u64) + 1
}
