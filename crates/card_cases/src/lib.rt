// No code: calls through C in plain numbers, and the one table of them: see specs/ and proofs/.
#![tactic(auto)]
