// Lists of steps and their reordering, as definitions and laws over any states and steps. There is no code here.
#![tactic(auto)]
