// The contracts of the public calls, as the sources have them, are the statement's promises and ask nothing: proofs only.
#![tactic(auto)]
