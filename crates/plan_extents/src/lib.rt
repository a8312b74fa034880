// What `take`, `pick` and `rmap_insert` mean, said of blocks and records and not by their steps. Theorems, no code.
#![tactic(auto)]
