#![tactic(auto)]

// What a readable file says to the rules and to the machine: its statements, each with its record's position, and the guests.
// This crate has definitions, and facts computed from them, and no code.
