// Theorems on the reconstruction of lossless blocks that assignment makes.
#![tactic(auto)]
