// No code: the theorems of what crosses to another language are in specs/Statement.antt and proofs/.
#![tactic(auto)]
