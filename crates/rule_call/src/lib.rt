// The call that reads rule text: questions 21 to 23 in order, and the lines of the rule written into the lent buffer. It takes no job.
#![tactic(auto)]

pub mod rule;
