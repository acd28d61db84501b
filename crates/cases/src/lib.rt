// Document 01's figures B1 to B12: definitions and one claim, with no code.
#![tactic(auto)]
