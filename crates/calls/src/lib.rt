// No code: what each call refuses, answers and leaves, as definitions, and the proof that this is what the book says of it.
#![tactic(auto)]
