// The records that a run writes, as data. No functions: see specs/ and proofs/.
#![tactic(auto)]
