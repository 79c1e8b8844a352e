// What writing one field of a sheet at a place of a buffer gives.
#![tactic(auto)]
