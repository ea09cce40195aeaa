// No code: definitions and laws on lists and numbers that more than one crate needs (specs/ and proofs/).
#![tactic(auto)]
