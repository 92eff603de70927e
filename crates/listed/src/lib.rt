#![tactic(auto)]

// Document 01's eight files, from their bytes, as one list with one fact, and more files with the verdicts that the definitions give them. This crate has
// definitions and facts only.
