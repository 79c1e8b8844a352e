// What a figure of a quantity is coded to: the definitions and their laws, demand 3 among them, stand in specs/.
#![tactic(auto)]
