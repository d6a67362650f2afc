// What is so of every book of notes and its text: the ranges of a note, in specs/, and the theorems, in proofs/. There is no code.
#![tactic(auto)]
