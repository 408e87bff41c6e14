// A job, its text, its run and the page that is written, as definitions (specs/), with case R computed from them (proofs/): no code.
#![tactic(auto)]
