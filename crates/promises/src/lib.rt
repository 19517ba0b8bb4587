// The demands as theorems, over the definitions that the contracts cite: all of it is in specs/. There is no code here.

#![tactic(auto)]
