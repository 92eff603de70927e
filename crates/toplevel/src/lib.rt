#![tactic(auto)]

// A return at top level says nothing: definitions and theorems, no code.
