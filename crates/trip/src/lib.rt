// What is planned and written is what is read: theorems on the entry points' answers.
#![tactic(auto)]
