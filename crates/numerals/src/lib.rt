#![tactic(auto)]

// Numbers as text: the definitions and their laws stand in specs/.
