// Laws of sums, lists and choices that every proof uses. No function: the statements are in specs/.
#![tactic(auto)]
