// What option code 13 changes of an input that it is put behind: nothing but the profile. There is no code here.
#![tactic(auto)]
