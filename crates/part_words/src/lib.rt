// Which part of the MLS auxiliary data a word carries: the definitions and their laws stand in specs/.
#![tactic(auto)]
