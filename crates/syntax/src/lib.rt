// One palette block of H.265: its run rules, its bins and their parse. Definitions and laws only, in specs/.
#![tactic(auto)]
