// Theorems on the plain rule: one MWh at a time by price has one outcome, the settled one. No function: the statements are in specs/.
#![tactic(auto)]
