// Keys of nodes that wait, and the leaves that they stand for (specs/), and why leaves come out of them in document 01's order (proofs/).
// No code.
#![tactic(auto)]
