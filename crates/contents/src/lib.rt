// What stands in a word field and in a figure field of a sheet: numbers, high byte first.
#![tactic(auto)]
