// Lists and truth values: definitions and laws only, no code.
#![tactic(auto)]
