// What the call `compile` answers and leaves in the lent tables, refusals included, as definitions (specs/), with the laws of refusals 1 to 9 and the figures (proofs/): no code.
#![tactic(auto)]
