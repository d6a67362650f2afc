// What a history is, what it sums up to, and what a caller reads out of the buffers: definitions, in specs/. There is no code.
#![tactic(auto)]
