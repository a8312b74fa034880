// What feeding a list's bytes to `list_apply` comes to. There is no code here: a list is applied whole, or nothing of it where its first
// two records don't fit.
#![tactic(auto)]
