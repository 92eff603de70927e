// What records share: unions over the labels of a set, and a set spread to many rows, by what is kept of the record before.
#![tactic(auto)]

pub mod spread;
pub mod told;
