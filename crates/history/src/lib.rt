// What the history of a card shows: demands 1 to 3 over any card, in specs/, and their theorems, in proofs/. There is no code.
#![tactic(auto)]
