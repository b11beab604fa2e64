// The marked cases of document 01 as one proved table. There is no code here.
#![tactic(auto)]
