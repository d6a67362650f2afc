// What the calls of `player` print for a whole recording, in specs/, and that it is the recording's meaning, in proofs/. There is no code.
#![tactic(auto)]
