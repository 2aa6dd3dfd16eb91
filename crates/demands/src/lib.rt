// What is promised of the whole stack, stated over the definitions that the contracts of crates stack and adomvik cite; no code.
#![tactic(auto)]
