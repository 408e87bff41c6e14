// No code: what follows from the promises of a host's calls: 0 exactly if accepted, what a refused call leaves, one answer for two calls, demand 3, a job's optimum.
#![tactic(auto)]
