// Laws of the definitions of `rules`, for every crate above to cite: all of it is in specs/. There is no code here.

#![tactic(auto)]
