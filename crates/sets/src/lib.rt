// The column of a subformula whose rule goes by sets, as those of the untils, EG and AG do: the states of the node's fragment are marked
// by their cells, the marks spread to the smallest set and to what the largest leaves out, and the cells take the values of their marks
// in the end.
#![tactic(auto)]

pub mod sets;
