// The words in which every queue's promises are said: see specs/. No code.
#![tactic(auto)]
