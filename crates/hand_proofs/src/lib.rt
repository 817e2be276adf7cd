// No code: laws for functions that are proved by hand, whatever they do (proofs/).
#![tactic(auto)]
