// Demand 3 as statements over traces of a search (specs/), and their proofs (proofs/): no code.
#![tactic(auto)]
