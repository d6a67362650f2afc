// What is so of every print of handover: what its theorems speak of, in specs/, and the theorems, in proofs/. There is no code.
#![tactic(auto)]
