// What records, words and the state of a reassembly lose as numbers, which is nothing: theorems only, in specs/.
#![tactic(auto)]
