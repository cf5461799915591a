// That analysis refused by 1 to 7 leaves all the memory lent to its exported calls as it was: laws, no code.
#![tactic(auto)]
