// No code: worked cases of the clocked bucket queue and of its front, computed from their rules on the words: see specs/ and proofs/.
#![tactic(auto)]
