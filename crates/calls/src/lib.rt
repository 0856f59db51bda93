// The nine calls of document 01 and page of document 02, one file each, on a job text and, but for read and line, a lent table of cells. Each takes
// any bytes and any numbers. A call on a table decodes the text once, which puts 1 to 8, then puts its own questions, and works on the image; fresh
// needs line 1 alone. A refusal leaves every byte that is lent.
#![tactic(auto)]

pub mod accept;
pub mod close;
pub mod finish;
pub mod fresh;
pub mod line;
pub mod look;
pub mod offer;
pub mod page;
pub mod read;
pub mod step;
