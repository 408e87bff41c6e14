// How the diagram's rows stand in lent tables of 64-bit words: definitions (specs/) and their laws (proofs/), no code.
#![tactic(auto)]
