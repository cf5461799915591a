// Theorems on the blocks that analysis makes and assignment accepts.
#![tactic(auto)]
