// The rules of elimination, as definitions and laws: there is no code here.
#![tactic(auto)]
