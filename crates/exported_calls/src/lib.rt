// No code: what is claimed of the exported calls, and the proof that it holds of their own contracts.
#![tactic(auto)]
