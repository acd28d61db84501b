// Demand 3: lists of calls, the rows that they bring, and the one claim about them. It has definitions and proofs, and no code.
#![tactic(auto)]
