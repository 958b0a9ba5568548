// No code: the cluster heaps, the tree and a plain list in rank order answer the same ranks (02 [2], [5]).
#![tactic(auto)]
