// The lines of a rule while it is read, a line equal to an earlier one kept once. At most 33 lines are kept, since more than 32 are refused.
#![tactic(auto)]

pub mod joining;
pub mod lines;
