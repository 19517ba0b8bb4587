// What one collection keeps and finds, proved over the definitions of `rules`: all of it is in specs/ and proofs/, and Collections.antt
// there states it. There is no code here.

#![tactic(auto)]
