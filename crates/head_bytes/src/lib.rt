// The bytes of a group's head, and their laws. No functions: see specs/ and proofs/.
#![tactic(auto)]
