// No code: theorems that tie the code of the C face to the demands.
#![tactic(auto)]
