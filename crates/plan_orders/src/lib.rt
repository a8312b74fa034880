// Sums over all groups in any order in which each group is taken once: theorems alone, no code.
#![tactic(auto)]
