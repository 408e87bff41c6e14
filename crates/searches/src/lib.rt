// The search's calls, start and pick, and compile over record structs, as definitions (specs/), with the figures computed from them (proofs/): no code.
#![tactic(auto)]
