// What holds of a card's values and of its image: lengths and round trips. No code.
#![tactic(auto)]
