// No code: what follows from the promises of `start` and `pick`: one answer for two picks, and demand 3 of calls.
#![tactic(auto)]
