// The lazy rule of the queue as definitions (specs/), and that its merges are those of training (proofs/). No code.
#![tactic(auto)]
