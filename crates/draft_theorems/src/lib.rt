// Demand 3 is in specs/: groupings of merge calls, and their results. Beside it are the slots that it speaks of, and the laws of filling.

#![tactic(auto)]
