// No code: the bucket queue's worked cases, computed from its rules on the words: see specs/ and proofs/.
#![tactic(auto)]
