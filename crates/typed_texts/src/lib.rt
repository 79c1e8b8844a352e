// Typed text, its parts and its numbers: the definitions and their laws stand in specs/.
#![tactic(auto)]
