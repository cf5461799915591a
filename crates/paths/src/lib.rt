// The run planner's paths, their costs and the cheapest of them. Definitions and laws only, in specs/.
#![tactic(auto)]
