// Demand 2 as six statements over the public knapsack (specs/), and their proofs (proofs/): no code.
#![tactic(auto)]
