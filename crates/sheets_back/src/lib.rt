// What is so of every sheet: the sheet that describes a card, in specs/, and the theorems, in proofs/. There is no code.
#![tactic(auto)]
