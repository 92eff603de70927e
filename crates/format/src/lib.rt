#![tactic(auto)]

// What a statement file is and what reading it gives (document 01, "The statement file" and "What each operation says no to").
// This crate has definitions and theorems only: the code that reads is in the crates sheet and reader.
