#![tactic(auto)]

// What two editions say of a file that both read: definitions and theorems, no code.
