// No code: what is claimed of lists of calls, and the proof that it holds of the calls' own contracts.
#![tactic(auto)]
