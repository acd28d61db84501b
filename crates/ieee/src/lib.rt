// The formats of IEEE 754: laws only, no code.
#![tactic(auto)]
