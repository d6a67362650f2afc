// What is so of every join of books, Ask 8: what its theorems speak of, in specs/, and the theorems, in proofs/. There is no code.
#![tactic(auto)]
