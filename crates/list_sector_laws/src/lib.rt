// That applylist learns a run's own sector size from the first bytes that writelist sends. There is no code here: theorems join
// `list_sector` and the list of an accepted run.
#![tactic(auto)]
