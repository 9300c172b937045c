// What a sheet means, and that the rules keep it: definitions and laws, and no code.
#![tactic(auto)]
