// The layout of a job text: questions 1 to 3, put to any bytes at all, where a line stands, and how far lines are right. Behind these questions every
// line is where the numbers of line 1 put it, which is what the loops over the lines go by.
#![tactic(auto)]

pub mod head;
pub mod lines;
