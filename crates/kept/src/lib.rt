// The calls keep the heap sound, and a refused call changes nothing: proved over the definitions of `rules`. All of it is in
// specs/. There is no code here.

#![tactic(auto)]
