// The source's own arithmetic for the log beside the geometry step's. No functions: see specs/ and proofs/.
#![tactic(auto)]
