// Any two outcomes that a contract allows for one input are equal: proofs/. Assumes nothing.
#![tactic(auto)]
