// The text of a summary: the definitions and their laws stand in specs/.
#![tactic(auto)]
