// No code: the theorems of lists of openings are in specs/Statement.antt and proofs/.
#![tactic(auto)]
