// What `parse` reads of the records that words ask for. There is no code here: two theorems join `request_words` and `request`.
#![tactic(auto)]
