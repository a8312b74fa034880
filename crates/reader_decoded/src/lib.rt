// What the bytes of a head say of its group's blocks, and that it is what the plan says. No functions: see specs/ and proofs/.
#![tactic(auto)]
