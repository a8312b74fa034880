// The station cases and planlist's example, as one table with one computed test. No functions: see specs/ and proofs/.
#![tactic(auto)]
