// The lines of a text, each of which a line feed ends: the definitions and their laws stand in specs/.
#![tactic(auto)]
