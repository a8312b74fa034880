// What the plans of all groups come to: a row of planlist's table for each group, and sums over the groups. Definitions and theorems
// alone; the types are table_lines'.
#![tactic(auto)]
