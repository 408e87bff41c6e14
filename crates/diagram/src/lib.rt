// The diagram of document 01 as definitions alone (specs/), with its hand figures computed from them (proofs/): no code.
#![tactic(auto)]
