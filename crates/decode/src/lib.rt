// What a word is, record or refusal: the definitions and the order of the tests stand in specs/.
#![tactic(auto)]
