// What is so of every play of a recording: what its theorems speak of, in specs/, and the theorems, in proofs/. There is no code.
#![tactic(auto)]
