// Whole numbers and lists for the proofs above: words in specs/, laws in proofs/. No code.
#![tactic(auto)]
