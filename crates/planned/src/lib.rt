// What is promised of the plan of every block. Theorems only, in specs/.
#![tactic(auto)]
