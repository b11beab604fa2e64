// Split accesses: the claims about whole lists of steps, and their proofs. There is no code here.
#![tactic(auto)]
