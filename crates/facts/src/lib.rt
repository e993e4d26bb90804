// The facts on walks and levels, for every n: theorems alone, in proofs/. There is no function here.
#![tactic(auto)]
