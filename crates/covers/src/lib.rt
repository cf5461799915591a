// What holds of the planner's table and of the path that it chooses. Laws only, in specs/.
#![tactic(auto)]
