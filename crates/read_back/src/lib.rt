// The promises of the saved text as a whole: writing and reading back, and the claims from a machine read back. There is no code here.
#![tactic(auto)]
