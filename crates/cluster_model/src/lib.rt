// No code: the cluster heap's rules (02 [2]) in specs/, the theorems in proofs/.
#![tactic(auto)]
