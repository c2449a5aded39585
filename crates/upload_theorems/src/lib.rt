// Statements about uploads, in specs/: what every call guarantees, and that the way in which bytes are cut into pieces does not matter.

#![tactic(auto)]
