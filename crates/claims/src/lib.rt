// The claims of the library are in specs/: the table of proved cases, the answers of the calls that read, the lengths of elements, and the round
// trip by calls.

#![tactic(auto)]
