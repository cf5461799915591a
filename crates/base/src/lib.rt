// Vocabulary that all crates share: definitions and laws only, in specs/.
#![tactic(auto)]
