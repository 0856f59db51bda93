// Messages between nodes: every owner's filled temporal cell is copied into the empty cells for it at border states.
#![tactic(auto)]

pub mod news;
