// That the size of an input is the size of what `writelist` sends for it. No functions: see specs/ and proofs/.
#![tactic(auto)]
