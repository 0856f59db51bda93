// A table that is lent: emptying it, and beside an image one cell of it, where it stands, what it holds, filling it.
//
// The image and the table are two parameters, and `Lent` says in each contract that they fit. One struct of both, with that as its ghost field, was
// tried on `cell`, `put` and a column's loop without its closure: it proves and is no plainer. To fill by, a contract says in place of `Lent` that the
// struct keeps its image and its reference, and each loop carries both. To be read, the clause goes, and whoever fills makes it anew for each read.
//
// A node, a state and a subformula are three numbers, and `IsCell`, `IsRow` and `IsColumn` say that they are in the job: a struct of them with that as its
// ghost field would hold the image besides, of which each function has one already.
#![tactic(auto)]

pub mod cell;
pub mod clear;
pub mod column;
