// No code: the cases are in proofs/.

#![tactic(auto)]
