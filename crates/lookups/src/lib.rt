// One use of the rules that look something up and keep what they found (crate kept), beside the names of their definitions (crate analysis): load, store,
// call, new, prim.
#![tactic(auto)]

pub mod call;
pub mod property;
