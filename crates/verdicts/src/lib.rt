#![tactic(auto)]

// The outcomes of verdict and check, defined from the bytes and the words they are given, and demand 3's sentences on the two together.
// This crate has definitions and theorems only.
