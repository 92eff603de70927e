#![tactic(auto)]

// What it changes that guests are held to a class of names: definitions and theorems, no code.
