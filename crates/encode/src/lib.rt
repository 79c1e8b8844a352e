// What a record is written as: the definitions and their laws stand in specs/.
#![tactic(auto)]
