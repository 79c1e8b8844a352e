// The listing by the sheet's groups, and its lines counted: the statements and their proofs are in specs/.
#![tactic(auto)]
