// The reader of rule text: expression, prefix form and closed form call each other, and each keeps the lines of what it has read.
#![tactic(auto)]

pub mod parse;
