// No code: what the names and the rows of an index become when one name is added or withdrawn (specs/), and its laws (proofs/).
#![tactic(auto)]
