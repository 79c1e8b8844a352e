#![tactic(auto)]

// What the functions that C calls tell, by the definitions of the library: theorems only, in specs/.
