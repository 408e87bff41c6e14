// Definitions and laws alone: items and decisions, the 0/1 knapsack, the best completion and the fast bound.
#![tactic(auto)]
