#![tactic(auto)]

// What the rules say holds of every run (demand 3): a table that the rules leave as it is describes every state of the handset machine. This
// crate has definitions and theorems only.
