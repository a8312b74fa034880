// What any calls of `hold` and `release` leave, said of blocks and runs. Theorems, no code.
#![tactic(auto)]
