// What every function of the library answers and leaves, as definitions (specs/) and theorems on them (proofs/). No code.
#![tactic(auto)]
