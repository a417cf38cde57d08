// RFC 3629 and the cut of a word into units: definitions and theorems, no code.
#![tactic(auto)]
