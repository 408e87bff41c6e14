// What the diagram's definition promises, proved of the definition alone (proofs/): no code.
#![tactic(auto)]
