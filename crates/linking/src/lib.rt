// What the search learns: what a record reads and what it may write (`ends`), which records grew something last (`recent`), and links from a record that grew
// something to those that did so after it (`links`, `past`). Promised is how many recent records there are at most, and nothing
// else: a link that is wrong or missing costs time.

#![tactic(auto)]

pub mod ends;
mod links;
pub mod past;
pub mod recent;
