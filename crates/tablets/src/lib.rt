// Two tablets that write user data to one card, 02 Ask 11: what the theorems speak of, in specs/, and the theorems, in proofs/. There is no code.
#![tactic(auto)]
