// Every block of a planned group has one use, and the reverse mappings agree with the uses. No functions: see specs/ and proofs/.
#![tactic(auto)]
