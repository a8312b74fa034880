// One use for each block, and the totals, by the bytes that a run leaves. No functions: see specs/ and proofs/.
#![tactic(auto)]
