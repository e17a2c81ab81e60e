// Document 01 as definitions (specs/) and what is proved of them (proofs/). No code, no memory, no layout.
#![tactic(auto)]
