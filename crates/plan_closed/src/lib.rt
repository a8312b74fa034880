// The plan of a group in closed form, and that the planner makes it. No functions: see specs/ and proofs/.
#![tactic(auto)]
