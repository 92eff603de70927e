#![tactic(auto)]

// Rules as data, and the theory of their least table. This crate has definitions (specs/) and theorems (proofs/) and no code.
