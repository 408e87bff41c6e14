// No code: what follows from the promise of `compile`: one answer for two calls, demand 2, the drained records and the starred cases.
#![tactic(auto)]
