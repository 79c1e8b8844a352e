// Decoding and encoding give each other back: the statements and their proofs are in specs/.
#![tactic(auto)]
