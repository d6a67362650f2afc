// The wrong cards of crates/history/specs/Wrong.antt, each turned away by a demand, and a story computed: theorems in proofs/, and no code.
#![tactic(auto)]
