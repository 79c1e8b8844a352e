// Figures as a person types them: the definitions and their laws stand in specs/.
#![tactic(auto)]
