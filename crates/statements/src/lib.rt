// No code: what is promised, restated in full and proved by citing (proofs/), and the worked figures (specs/Figures.antt).
#![tactic(auto)]
