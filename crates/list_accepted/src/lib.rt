// What every accepted run has, and what its superblocks say. No functions: see specs/ and proofs/.
#![tactic(auto)]
