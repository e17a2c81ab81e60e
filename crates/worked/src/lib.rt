// Worked examples: what the definitions of `dstree` give at small values, by computation. No code.
#![tactic(auto)]
