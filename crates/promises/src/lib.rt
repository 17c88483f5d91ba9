// What any call of factor leaves, told from its contract alone: proofs only.
#![tactic(auto)]
