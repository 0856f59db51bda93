// The reader: questions 1 to 8, put to any bytes at all. A text that it accepts is a job's, exactly as the layout has it. The first line that is
// malformed ends the reading; behind the last line questions 5 to 8 are asked in order, from what the loops over the lines have kept.
#![tactic(auto)]

pub mod read;
