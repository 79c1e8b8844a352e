// The parts of a typed line, which blanks and tabs part, and its end: the definitions and their laws stand in specs/.
#![tactic(auto)]
