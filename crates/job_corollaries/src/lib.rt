// No code: what follows from the promises of `run_job` and `answer` for two calls: one text has one output.
#![tactic(auto)]
