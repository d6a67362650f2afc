// What holds of every command's row: one record of facts a row. No code.
#![tactic(auto)]
