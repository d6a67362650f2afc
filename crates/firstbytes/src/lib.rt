// What firstread prints to the byte, in specs/, and the theorems, in proofs/. There is no code.
#![tactic(auto)]
