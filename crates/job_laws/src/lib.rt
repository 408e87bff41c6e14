// No code: what a job's run comes to, in the words of the public knapsack problem (specs/), proved from demand 3.
#![tactic(auto)]
