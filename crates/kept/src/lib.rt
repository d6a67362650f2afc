// What makes an image a card is kept, and a fresh card has it. No code: theorems for `history`.
#![tactic(auto)]
