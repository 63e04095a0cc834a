// Theorems on the rules of document 01: what is shared out and what stays open make up the hour. No function: the statements are in specs/.
#![tactic(auto)]
