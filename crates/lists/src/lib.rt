// Searches of a list, as definitions and laws for the crates above. There is no code here.
#![tactic(auto)]
