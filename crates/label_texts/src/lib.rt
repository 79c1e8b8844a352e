// Labels as text: the definitions and their laws stand in specs/.
#![tactic(auto)]
