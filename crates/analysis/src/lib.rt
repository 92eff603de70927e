#![tactic(auto)]

// The rules of document 01 over a program, the least table and the verdict. This crate has definitions and theorems only.
