// What the search knows of a file before it begins: the parts of a record that it looks at (`record`), where records begin (`starts`), in which blocks something
// is read (`index`, `readers`). What it keeps of the table beside it is here too (`view`, `seen`, `stored`), and what it notes of growth (`grown`). Promised is
// that a record begins where a bit says so, and nothing of what else the index has: what it lacks costs time.

#![tactic(auto)]

pub mod bytes;
pub mod grown;
pub mod index;
pub mod notes;
pub mod position;
pub mod queue;
pub mod readers;
pub mod record;
pub mod round;
pub mod seen;
pub mod starts;
pub mod stored;
pub mod view;
