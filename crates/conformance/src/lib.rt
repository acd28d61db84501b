// What callers learn from the public contracts: the calls on tables are the steps of a way of working, the calls on files fix what is read and written, and none asks anything. Claims and their proofs, and no code.
#![tactic(auto)]
