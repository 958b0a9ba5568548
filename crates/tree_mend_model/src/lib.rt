// No code: what the check of a tree's store and its mending answer. The rules are in specs/, the theorems in proofs/.
#![tactic(auto)]
