// What holds of a request that has to wait, over any card that meets demand 2: theorems, in proofs/. There is no code.
#![tactic(auto)]
