// That what is written for an accepted run, piece by piece, and read again is the run's list. No functions: see specs/ and proofs/.
#![tactic(auto)]
