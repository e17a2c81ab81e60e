// What adding does to the lent tables, place by place (specs/), and that it means document 01's insertion (proofs/). No code.
#![tactic(auto)]
