// Runs of the writer's steps: definitions and proofs only.

#![tactic(auto)]
