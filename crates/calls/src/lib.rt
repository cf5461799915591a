// What a call with lent memory answers and leaves in it: definitions and laws, no code.
#![tactic(auto)]
