#![tactic(auto)]

// The handset machine (document 01, "The handset machine"): what host and guest can do, step by step, with the program that the rules are
// about. This crate has definitions, laws about them, and runs computed from them, and no code.
