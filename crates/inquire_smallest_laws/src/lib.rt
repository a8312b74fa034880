// The free count that `smallest` goes by stands in the superblock that a run leaves: theorems alone, no code.
#![tactic(auto)]
