// Which record to use next, between whole passes. Records that grew something lead to those that did so after them (crate linking): these come first. Then come
// the readers of variables that grew (`readers`), one variable after the other, and at last a round over the file for all else that grew (`rounds`, `wakes`;
// crate growth). Nothing is promised but that a record begins where the search says so: what it misses costs time, since a whole pass finds it.

#![tactic(auto)]

pub mod next;
pub mod readers;
pub mod rounds;
mod scan;
mod wakes;
