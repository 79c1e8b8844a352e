// A word typed in hex, exactly eight digits of either case: the definitions and their laws stand in specs/.
#![tactic(auto)]
