// The candidates of the queue as the entries of the lazy rule: definitions (specs/) and laws (proofs/). No code.
#![tactic(auto)]
