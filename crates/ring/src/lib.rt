// No code: what follows of an index is in proofs/.

#![tactic(auto)]
