// Card 9 over ways of working: lists of calls with removals, what they leave each table's account with, and the one claim about them. It has definitions and proofs, and no code.
#![tactic(auto)]
