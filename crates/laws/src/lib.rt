// No code: laws of lists, sums and tests that every model uses, in specs/.
#![tactic(auto)]
