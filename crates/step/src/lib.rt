// One step of rewriting a pair (a,b) to x in a word: an occurrence is rewritten, or one symbol is
// kept.
//
// Numbers only, no memory: the step is handed back by value, with its reports, so that one rule
// serves every loop over a word, whatever the memory it stands in.
#![tactic(auto)]

ghost use Rattle.std.specs.Prelude.{◌≡◌};
ghost use Rattle.step.specs.Step.{step_by};

// A merge as a rule for words: the pair (a,b) is rewritten to x.
#[derive(Clone, Copy)]
pub struct Rule {
    pub a: u32,
    pub b: u32,
    pub x: u32,
}

// What a step does: it writes `symbol` and has read `took` symbols, 1 or 2. Its reports, in this
// order: (previous,a) -1 and (previous,x) +1, where `behind` has the previous symbol; (b,next) -1
// and (x,next) +1, where `ahead` has the next one.
#[derive(Clone, Copy)]
pub struct Step {
    pub symbol: u32,
    // Stays: `took` as a number: each loop adds it to its place and takes it from what is left.
    pub took: usize,
    pub behind: Option<u32>,
    pub ahead: Option<u32>,
}

// The step where s, t and u are the next symbols to be read, as far as there are any. `previous` is
// the symbol that stands before in the rewritten word, if any, not in the old one: that symbol may
// be gone by now.
#[tactic(auto, unfolding(crate::specs::Step::step_by, crate::specs::Step::starts_pair))]
pub fn decide(rule: Rule, previous: Option<u32>, s: u32, t: Option<u32>, u: Option<u32>) -> Step
    ensures { result ≡ step_by rule.a rule.b rule.x previous s t u }
{
    if s == rule.a && t == Some(rule.b) {
        return Step {
            symbol: rule.x,
            took: 2,
            behind: previous,
            ahead: u,
        };
    }
    Step {
        symbol: s,
        took: 1,
        behind: None,
        ahead: None,
    }
}
