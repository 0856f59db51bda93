// The least set of a rule that goes from a state's successors to the state: one worklist for every set rule, over the edges of one node.
#![tactic(auto)]

pub mod mark;
pub mod spread;
mod waiting;
