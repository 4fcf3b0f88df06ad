// No code: the theorems are in proofs/.

#![tactic(auto)]
