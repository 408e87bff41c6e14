// The laws of the whole call `compile`: statements (specs/) and their proofs (proofs/), no code.
#![tactic(auto)]
