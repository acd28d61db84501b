// What a call that is lent a buffer for its output alone says and leaves: definitions and laws only, no code.
#![tactic(auto)]
