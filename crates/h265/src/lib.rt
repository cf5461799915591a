// Rec. ITU-T H.265, palette mode: definitions and laws only, in specs/.
#![tactic(auto)]
