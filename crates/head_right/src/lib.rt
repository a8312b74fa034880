// What an answer "already right" says of heads, root chunks and the structures in them: theorems alone, no code.
#![tactic(auto)]
